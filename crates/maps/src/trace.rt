// What a record tells of the map that it ran on.
ghost use Rattle.std.specs.Prelude.{◌≡◌};
ghost use Rattle.objects.specs.Traces.{looked};
ghost use Rattle.maps.specs.Traces.{is_found, is_old, shows, trace, window, wrote};

use crate::request::{Request, in_range};
use objects::records::{Answer, Record};
use objects::traces::{Change, Sight, Trace};

// The first and the last of some days, and what the first one held; the others were empty.
#[derive(Clone, Copy, Debug)]
pub struct Window {
    pub first: u32,
    pub last: u32,
    pub content: Option<i64>,
}

impl Sight<Option<i64>> for Window {
    ghost shown = { shows };

    fn shows(self, change: Change<Option<i64>>) -> bool
        ensures { result ≡ shows self change }
    {
        let seen = if change.place == self.first {
            self.content
        } else {
            None
        };
        (self.first..=self.last).contains(&change.place) && seen == change.after
    }
}

// The trace of a record; none of one that can't have run.
pub fn trace_of(record: &Record) -> Option<Trace<Window, Option<i64>>>
    ensures { result ≡ trace «record».now }
{
    let answer = record.answer;
    match Request::of(&record.operation) {
        Some(Request::Put(day, value)) if answer == Answer::NEW => {
            Some(wrote(day, None, Some(value)))
        }
        Some(Request::Put(day, value)) if is_old(answer) => {
            Some(wrote(day, Some(answer.value), Some(value)))
        }
        Some(Request::Drop(day)) if answer == Answer::ABSENT => Some(wrote(day, None, None)),
        Some(Request::Drop(day)) if is_old(answer) => Some(wrote(day, Some(answer.value), None)),
        Some(Request::Find(day)) if answer == Answer::NOTHING => Some(looked_at(0, day, None)),
        Some(Request::Find(day)) if is_found(day, answer) => {
            Some(looked_at(answer.place, day, Some(answer.value)))
        }
        None if answer == Answer::BAD => Some(Trace::looked(None)),
        _ => None,
    }
}

// Of a record that looked at the days from the first to the last, and changed nothing.
fn looked_at(first: u32, last: u32, content: Option<i64>) -> Trace<Window, Option<i64>>
    ensures { result ≡ looked (Some (window first last content)) }
{
    Trace::looked(Some(Window {
        first,
        last,
        content,
    }))
}

// A write that leaves what the day held has changed nothing.
fn wrote(day: u32, before: Option<i64>, after: Option<i64>) -> Trace<Window, Option<i64>>
    ensures { result ≡ wrote day before after }
{
    let change = Change {
        place: day,
        before,
        after,
    };
    Trace {
        change: (before != after).then_some(change),
        ..looked_at(day, day, before)
    }
}

// Whether put or drop can have answered this old value.
fn is_old(answer: Answer) -> bool
    ensures { result ≡ is_old answer }
{
    answer == Answer::old(answer.value) && in_range(answer.value)
}

// Whether a find of this day can have given this answer.
fn is_found(day: u32, answer: Answer) -> bool
    ensures { result ≡ is_found day answer }
{
    answer == Answer::found(answer.place, answer.value)
        && answer.place <= day
        && in_range(answer.value)
}
