// What an operation asks of the set.
ghost use Rattle.std.specs.Prelude.{◌≡◌, IfSome};
ghost use Rattle.sets.specs.Requests.{Sane, meant};

use objects::codes;
use objects::codes::Family;
use objects::records::Operation;

#[derive(Clone, Copy, Debug)]
pub enum Request {
    Insert(u32),
    Remove(u32),
    Has(u32),
    Size,
}

impl Request {
    // None of an operation that is bad for the set. No `TryFrom`: that has one clause, and its error would carry nothing.
    pub fn of(operation: &Operation) -> Option<Request>
        ensures value { result ≡ meant operation.now }
        ensures sane { IfSome result Sane }
    {
        let key = operation.key;
        match codes::own_rule(Family::Set, operation)?.code {
            codes::INSERT => Some(Request::Insert(key)),
            codes::REMOVE => Some(Request::Remove(key)),
            codes::HAS => Some(Request::Has(key)),
            codes::SIZE => Some(Request::Size),
            _ => None,
        }
    }
}
