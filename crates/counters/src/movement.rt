// What an operation asks of the bank.
ghost use Rattle.std.specs.Prelude.{◌≡◌};
ghost use Rattle.counters.specs.Bank.{is_reading};
ghost use Rattle.counters.specs.Bounds.{Sane};
ghost use Rattle.counters.specs.Counts.{ceiling};
ghost use Rattle.counters.specs.Movements.{meant};

use crate::bank::CEILING;
use objects::codes;
use objects::codes::Family;
use objects::records::{Answer, Operation};

#[derive(Clone, Copy, Debug)]
pub enum Movement {
    Add(u32, i64),
    Take(u32, i64),
    Read(u32),
}

impl Movement {
    // None where the operation is bad for the bank. No `TryFrom`: that has one clause, and its error would carry nothing.
    pub fn of(operation: &Operation) -> Option<Movement>
        ensures value { result ≡ meant ceiling operation.now }
        ensures sane { Sane ceiling result }
    {
        let row = codes::own_rule(Family::Counter, operation)?;
        let Operation {
            code,
            key,
            amount,
            ..
        } = *operation;
        // Of the counter's codes, those that change it take an amount.
        if row.changes && !(1..=CEILING).contains(&amount) {
            return None;
        }
        match code {
            codes::ADD => Some(Movement::Add(key, amount)),
            codes::TAKE => Some(Movement::Take(key, amount)),
            codes::READ => Some(Movement::Read(key)),
            _ => None,
        }
    }
}

// Whether a read can have given this answer.
pub fn is_reading(answer: Answer) -> bool
    ensures { result ≡ is_reading ceiling answer }
{
    answer.is_value_to(CEILING)
}
