// A record withdrawn from before others, where that leaves what would have been without it.
ghost use Rattle.std.specs.Prelude.{◌≡◌, Some};
ghost use Rattle.objects.specs.Leads.{NeverPosted, Retracted, reason_text, retracted};

use crate::object::Object;
use crate::records::Record;
use std::error::Error;
use std::fmt;

// What keeps a record from being withdrawn.
#[derive(Clone, Copy, PartialEq, Eq, Debug)]
pub enum NotWithdrawn {
    // Nothing stands in the way, but the record's withdrawal does not apply here: it cannot have run.
    Inapplicable,
    // The test refuses the later record at this index, the first such. A caller may go on to number it otherwise.
    Blocked(usize),
}

impl fmt::Display for NotWithdrawn {
    ghost output = { λ reason. Some (reason_text reason) };

    fn fmt<W: fmt::Write>(&self, f: &mut fmt::Formatter<W>) -> fmt::Result {
        match self {
            NotWithdrawn::Inapplicable => write!(f, "it cannot have run"),
            NotWithdrawn::Blocked(at) => write!(f, "{at} stands in the way"),
        }
    }
}

impl Error for NotWithdrawn {}

// Withdraws a record after which the later ones ran, in their order, unless its test refuses one of them: then nothing changes.
pub fn retract<O: Object>(
    object: &mut O,
    earlier: &Record,
    later: &[Record],
) -> Result<(), NotWithdrawn>
    ensures answer { Retracted (O.Object.kind (O.Object.fixed object.old)) (O.Object.state object.old) earlier.now later.now result }
    ensures moves { O.Object.state object.new ≡ retracted (O.Object.kind (O.Object.fixed object.old)) (O.Object.state object.old) earlier.now result }
    ensures keeps { O.Object.fixed object.new ≡ O.Object.fixed object.old }
    ensures never { NeverPosted (O.Object.kind (O.Object.fixed object.old)) (O.Object.state object.old) earlier.now later.now result (O.Object.state object.new) }
{
    for (i, record) in later.iter().enumerate() {
        if !object.test(earlier, record) {
            return Err(NotWithdrawn::Blocked(i));
        }
    }
    if object.withdraw(earlier) {
        Ok(())
    } else {
        Err(NotWithdrawn::Inapplicable)
    }
}
