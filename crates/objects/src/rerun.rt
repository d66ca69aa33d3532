// A record run again.
ghost use Rattle.std.specs.Prelude.{◌≡◌};
ghost use Rattle.objects.specs.Answers.{same};

use crate::object::Object;
use crate::records::Record;

// Does a record's operation, and says whether it was answered as the record has it.
pub fn rerun<O: Object>(object: &mut O, record: &Record) -> bool
    ensures answers { result ≡ same ((O.Object.kind (O.Object.fixed object.old)).ran (O.Object.state object.old) «record».now.operation).0 «record».now.answer }
    ensures moves { O.Object.state object.new ≡ ((O.Object.kind (O.Object.fixed object.old)).ran (O.Object.state object.old) «record».now.operation).1 }
    ensures keeps { O.Object.fixed object.new ≡ O.Object.fixed object.old }
{
    object.run(record.operation) == record.answer
}
