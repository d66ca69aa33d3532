// A line of a sample: ORDER VERB KEY AMOUNT.
ghost use Rattle.std.specs.Prelude.{◌≡◌, IfOk, IfSome, Some, codes};

use objects::codes;
use objects::records::Operation;
use std::error::Error;
use std::fmt;
use std::str::FromStr;

// What an order asks of the object.
#[derive(Clone, Copy, PartialEq, Eq, Debug)]
pub struct Movement {
    pub order: u16,
    pub operation: Operation,
}

// A text that is no movement.
#[derive(Clone, Copy, PartialEq, Eq, Debug)]
pub struct NoMovement;

impl FromStr for Movement {
    type Err = NoMovement;

    // A line names no unit: it is 0.
    ghost from_str_gives = { λ _ r. IfOk r (λ m. m.operation.unit ≡ 0) };

    fn from_str(line: &str) -> Result<Movement, NoMovement> {
        parsed(line).ok_or(NoMovement)
    }
}

fn parsed(line: &str) -> Option<Movement>
    ensures { IfSome result (λ m. m.operation.unit ≡ 0) }
{
    let mut words = line.split_whitespace();
    let order = words.next()?.parse::<u16>().ok()?;
    let code = code_of(words.next()?)?;
    let key = words.next()?.parse::<u32>().ok()?;
    let amount = words.next()?.parse::<i64>().ok()?;
    if words.next().is_some() {
        return None;
    }
    Some(Movement {
        order,
        operation: Operation {
            code,
            unit: 0,
            key,
            amount,
        },
    })
}

// No `FromStr`: a code is a plain number, which has one of its own.
fn code_of(verb: &str) -> Option<u8> {
    match verb {
        "add" => Some(codes::ADD),
        "take" => Some(codes::TAKE),
        "read" => Some(codes::READ),
        "insert" => Some(codes::INSERT),
        "remove" => Some(codes::REMOVE),
        "has" => Some(codes::HAS),
        "size" => Some(codes::SIZE),
        "put" => Some(codes::PUT),
        "drop" => Some(codes::DROP),
        "find" => Some(codes::FIND),
        _ => None,
    }
}

impl fmt::Display for NoMovement {
    ghost output = { λ _. Some (codes "not ORDER VERB KEY AMOUNT") };

    fn fmt<W: fmt::Write>(&self, f: &mut fmt::Formatter<W>) -> fmt::Result {
        write!(f, "not ORDER VERB KEY AMOUNT")
    }
}

impl Error for NoMovement {}
