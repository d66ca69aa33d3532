// What a record tells of the set that it ran on.
ghost use Rattle.std.specs.Prelude.{◌≡◌};
ghost use Rattle.sets.specs.Traces.{is_count, shows, trace, turned_key};

use crate::bits::KEYS;
use crate::request::Request;
use objects::records::{Answer, Record};
use objects::traces::{Change, Sight, Trace};

#[derive(Clone, Copy, Debug)]
pub enum Seen {
    // A key, and whether it is a member.
    Key(u32, bool),
    // How many members there are.
    Count(i64),
}

impl Sight<bool> for Seen {
    ghost shown = { shows };

    fn shows(self, change: Change<bool>) -> bool
        ensures { result ≡ shows self change }
    {
        match self {
            Seen::Key(key, member) => key == change.place && member == change.after,
            // Only one count never occurs where the key is a member, or isn't: the least, or the largest.
            Seen::Count(count) => {
                if change.after {
                    count > 0
                } else {
                    count < i64::from(KEYS)
                }
            }
        }
    }
}

// The trace of a record; none of one that can't have run.
pub fn trace_of(record: &Record) -> Option<Trace<Seen, bool>>
    ensures { result ≡ trace «record».now }
{
    let answer = record.answer;
    match Request::of(&record.operation) {
        Some(Request::Insert(key)) if answer == Answer::NEW => Some(turned_key(key, false)),
        Some(Request::Insert(key)) if answer == Answer::ALREADY => {
            Some(Trace::looked(Some(Seen::Key(key, true))))
        }
        Some(Request::Remove(key)) if answer == Answer::GONE => Some(turned_key(key, true)),
        Some(Request::Remove(key)) if answer == Answer::ABSENT => {
            Some(Trace::looked(Some(Seen::Key(key, false))))
        }
        Some(Request::Has(key)) if answer == Answer::YES => {
            Some(Trace::looked(Some(Seen::Key(key, true))))
        }
        Some(Request::Has(key)) if answer == Answer::NO => {
            Some(Trace::looked(Some(Seen::Key(key, false))))
        }
        Some(Request::Size) if is_count(answer) => {
            Some(Trace::looked(Some(Seen::Count(answer.value))))
        }
        None if answer == Answer::BAD => Some(Trace::looked(None)),
        _ => None,
    }
}

// The key was `from`, and is the opposite since.
fn turned_key(key: u32, from: bool) -> Trace<Seen, bool>
    ensures { result ≡ turned_key key from }
{
    Trace {
        saw: Some(Seen::Key(key, from)),
        change: Some(Change {
            place: key,
            before: from,
            after: !from,
        }),
    }
}

// Whether size can have given this answer.
fn is_count(answer: Answer) -> bool
    ensures { result ≡ is_count answer }
{
    answer.is_value_to(i64::from(KEYS))
}
