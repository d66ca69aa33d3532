// What an operation asks of the map.
ghost use Rattle.std.specs.Prelude.{◌≡◌, IfSome};
ghost use Rattle.maps.specs.Days.{in_range};
ghost use Rattle.maps.specs.Requests.{Sane, meant};

use crate::days::LARGEST;
use objects::codes;
use objects::codes::Family;
use objects::records::Operation;

#[derive(Clone, Copy, Debug)]
pub enum Request {
    Put(u32, i64),
    Drop(u32),
    Find(u32),
}

impl Request {
    // None of an operation that is bad for the map. No `TryFrom`: that has one clause, and its error would carry nothing.
    pub fn of(operation: &Operation) -> Option<Request>
        ensures value { result ≡ meant operation.now }
        ensures sane { IfSome result Sane }
    {
        let row = codes::own_rule(Family::Map, operation)?;
        let day = operation.key;
        match row.code {
            codes::PUT if in_range(operation.amount) => Some(Request::Put(day, operation.amount)),
            codes::DROP => Some(Request::Drop(day)),
            codes::FIND => Some(Request::Find(day)),
            _ => None,
        }
    }
}

// Whether a day can hold this. The bank's test has other bounds: what the two share is `contains`.
pub fn in_range(value: i64) -> bool
    ensures { result ≡ in_range value }
{
    (-LARGEST..=LARGEST).contains(&value)
}
