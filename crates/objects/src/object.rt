// The interface of an object: what the ledger and the layers know of one.
ghost use Rattle.std.specs.Prelude.{◌≡◌, is_some};
ghost use Rattle.std.specs.Option.{unwrap_or};
ghost use Rattle.objects.specs.Kinds.{Kind, Laws};

use crate::records::{Answer, Operation, Record};

pub trait Object {
    // What was fixed at the making, and what the calls move.
    ghost Fixed: { Type 0 };

    ghost State: { Type 0 };

    ghost kind: { Fixed → Kind State };

    ghost fixed: { Self → Fixed };

    ghost state: { Self → State };

    // Does an operation and answers. `keeps` stands here and wherever an object is moved: it is of before and after, which no type can hold.
    fn run(&mut self, operation: Operation) -> Answer
        ensures answers { result ≡ ((kind (fixed self.old)).ran (state self.old) operation).0 }
        ensures moves { state self.new ≡ ((kind (fixed self.old)).ran (state self.old) operation).1 }
        ensures keeps { fixed self.new ≡ fixed self.old };

    // Moves the state as the record's withdrawal says, and answers whether it applied; where it does not apply, the state stays.
    fn withdraw(&mut self, record: &Record) -> bool
        ensures applies { result ≡ is_some ((kind (fixed self.old)).withdrawn (state self.old) «record».now) }
        ensures moves { state self.new ≡ unwrap_or ((kind (fixed self.old)).withdrawn (state self.old) «record».now) (state self.old) }
        ensures keeps { fixed self.new ≡ fixed self.old };

    // Whether the withdrawal of the earlier record and the later one commute in every lawful state.
    fn test(&self, earlier: &Record, later: &Record) -> bool
        ensures { result ≡ (kind (fixed self.now)).tested earlier.now later.now };

    ghost lawful: { (x : Self) → (kind (fixed x)).Lawful (state x) };

    ghost laws: { (x : Self) → Laws (kind (fixed x)) };
}
