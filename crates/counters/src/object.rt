// The bank as an object.
ghost use Rattle.std.specs.Prelude.{◌≡◌, ◌<◌, List, ℤ, is_some};
ghost use Rattle.std.specs.Option.{unwrap_or};
ghost use Rattle.counters.specs.Bank.{shifted};
ghost use Rattle.counters.specs.Counts.{ceiling, counters};
ghost use Rattle.counters.specs.Kind.{bank};
ghost use Rattle.counters.specs.Bounds.{Small};
ghost use Rattle.std.specs.Int.Signed.{le_z_yes};
ghost use Rattle.counters.specs.Lemmas.Laws.{bank_laws};

use crate::bank::{CounterBank, in_range};
use crate::movement::{Movement, is_reading};
use crate::span::commute;
use objects::object::Object;
use objects::records::{Answer, Operation, Record};

// A key becomes an index by `as` here and below: there is no `From` for that, and `TryFrom` would bring in a failure that cannot occur, no plainer.
impl CounterBank {
    // Moves a counter where it stays from 0 to the ceiling, and says whether it did.
    fn shift(&mut self, key: u32, by: i64) -> bool
        requires { (key < counters) × (Small ceiling by) }
        ensures moves { result ≡ is_some (shifted ceiling self.old.counts key by) }
        ensures counts { self.new.counts ≡ unwrap_or (shifted ceiling self.old.counts key by) self.old.counts }
    {
        let next = self.counts[key as usize] + by;
        if !in_range(next) {
            return false;
        }
        self.counts[key as usize] = next;
        true
    }
}

impl Object for CounterBank {
    ghost Fixed = { Unit {0} };

    ghost State = { List ℤ };

    ghost kind = { λ _. bank ceiling };

    ghost fixed = { λ _. tt };

    ghost state = { λ b. b.counts };

    ghost lawful = { λ x. x.lawful };

    ghost laws = { λ x. bank_laws ceiling (le_z_yes tt) };

    #[tactic(auto, using(crate::proofs::Wide::wide))]
    fn run(&mut self, operation: Operation) -> Answer {
        match Movement::of(&operation) {
            Some(Movement::Add(key, n)) => {
                if self.shift(key, n) {
                    Answer::DONE
                } else {
                    Answer::FULL
                }
            }
            Some(Movement::Take(key, n)) => {
                if self.shift(key, -n) {
                    Answer::DONE
                } else {
                    Answer::SHORT
                }
            }
            Some(Movement::Read(key)) => Answer::value(self.counts[key as usize]),
            None => Answer::BAD,
        }
    }

    #[tactic(auto, using(crate::proofs::Wide::wide))]
    fn withdraw(&mut self, record: &Record) -> bool {
        let answer = record.answer;
        match Movement::of(&record.operation) {
            Some(Movement::Add(key, n)) if answer == Answer::DONE => self.shift(key, -n),
            Some(Movement::Add(..)) => answer == Answer::FULL,
            Some(Movement::Take(key, n)) if answer == Answer::DONE => self.shift(key, n),
            Some(Movement::Take(..)) => answer == Answer::SHORT,
            Some(Movement::Read(_)) => is_reading(answer),
            None => answer == Answer::BAD,
        }
    }

    fn test(&self, earlier: &Record, later: &Record) -> bool {
        earlier.operation.key != later.operation.key || commute(earlier, later)
    }
}
