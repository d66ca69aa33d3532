// The movements of the sample, by the object that they are for.
ghost use Rattle.std.specs.Prelude.{◌≡◌, IfSome};
ghost use Rattle.objects.specs.Codes.{family};
ghost use Rattle.juddrevan_pile.specs.Questions.{asked_by};
ghost use Rattle.juddrevan_pile.specs.Routes.{Reaches};

use crate::pile::unit_of;
use objects::codes;
use objects::records::Operation;
use samples::movement::Movement;

// A line's movement, on the object of the pile that its verb is for; none of another line.
pub fn movement_of(line: &str) -> Option<Movement>
    ensures { IfSome result (λ m. Reaches (family m.operation.code) m.operation) }
{
    let movement = line.parse::<Movement>().ok()?;
    let row = codes::rule_of(movement.operation.code)?;
    let unit = unit_of(row.family);
    Some(Movement {
        operation: Operation {
            unit,
            ..movement.operation
        },
        ..movement
    })
}

// The operation that asks for what this one moved or saw, and moves nothing.
pub fn question(operation: Operation) -> Operation
    ensures { result ≡ asked_by operation }
{
    let code = match operation.code {
        0..=codes::READ => codes::READ,
        codes::SIZE => codes::SIZE,
        codes::INSERT..=codes::HAS => codes::HAS,
        _ => codes::FIND,
    };
    Operation {
        code,
        amount: 0,
        ..operation
    }
}
