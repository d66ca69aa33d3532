// The map as an object.
ghost use Rattle.std.specs.Prelude.{◌≡◌, ◌<◌, ℕ, true, length, List, ℤ, is_some, Some, None, IfNone, IfSome, Option, slice_set};
ghost use Rattle.std.specs.Option.{unwrap_or};
ghost use Rattle.objects.specs.Traces.{restored};
ghost use Rattle.maps.specs.Days.{fits, held, same_content};
ghost use Rattle.maps.specs.Kind.{dated_map};
ghost use Rattle.maps.specs.Latest.{latest};
ghost use Rattle.maps.specs.Lemmas.Laws.{dated_map_laws};

use crate::days::{DAYS, DatedMap};
use crate::request::Request;
use crate::trace::trace_of;
use objects::object::Object;
use objects::records::{Answer, Operation, Record};
use objects::traces;
use objects::traces::Change;

// A day becomes an index by `as` here and below, and an index a day: there is no `From` for that, and `TryFrom` would bring in a failure that cannot occur, no plainer.
impl DatedMap {
    // What a day holds; one past the last holds nothing.
    fn content(&self, day: u32) -> Option<i64>
        ensures { result ≡ held self.now.days day }
    {
        self.days.get(day as usize).copied().flatten()
    }

    // Sets what a day holds, and gives what it held before; one past the last stays empty.
    fn replace(&mut self, day: u32, content: Option<i64>) -> Option<i64>
        requires { fits content ≡ true }
        ensures before { result ≡ held self.old.days day }
        ensures after { self.new.days ≡ slice_set self.old.days day content }
    {
        let at = day as usize;
        // tried `get_mut`: its contract does not say what the days are after the write.
        if at >= DAYS {
            return None;
        }
        std::mem::replace(&mut self.days[at], content)
    }

    // Takes a change back where its day holds what it left there, and says whether it did.
    fn restore(&mut self, change: Change<Option<i64>>) -> bool
        requires { fits change.before ≡ true }
        ensures applies { result ≡ is_some (restored same_content None self.old.days (Some change)) }
        ensures after { self.new.days ≡ unwrap_or (restored same_content None self.old.days (Some change)) self.old.days }
    {
        let stands = self.content(change.place) == change.after;
        if stands {
            self.replace(change.place, change.before);
        }
        stands
    }

    // The latest filled day not after this one, with its value.
    fn latest(&self, day: u32) -> Option<(u32, i64)>
        ensures { result ≡ latest self.now.days day }
    {
        let last = (day as usize).min(DAYS - 1);
        let at = last_filled(&self.days[..=last])?;
        Some((at as u32, self.days[at]?))
    }
}

// The last of some days that holds a value.
fn last_filled(days: &[Option<i64>]) -> Option<usize>
    ensures none { IfNone result ((e : ℕ) → e < length days.now → held days.now e ≡ None) }
    ensures some { IfSome result (λ i. (i < length days.now) × (is_some (held days.now i) ≡ true) × ((e : ℕ) → i < e → e < length days.now → held days.now e ≡ None)) }
{
    days.iter().rposition(|content| content.is_some())
}

impl Object for DatedMap {
    ghost Fixed = { Unit {0} };

    ghost State = { List (Option ℤ) };

    ghost kind = { λ _. dated_map };

    ghost fixed = { λ _. tt };

    ghost state = { λ m. m.days };

    ghost lawful = { λ m. m.lawful };

    ghost laws = { λ _. dated_map_laws };

    fn run(&mut self, operation: Operation) -> Answer {
        match Request::of(&operation) {
            Some(Request::Put(day, value)) => match self.replace(day, Some(value)) {
                None => Answer::NEW,
                Some(before) => Answer::old(before),
            },
            Some(Request::Drop(day)) => match self.replace(day, None) {
                None => Answer::ABSENT,
                Some(before) => Answer::old(before),
            },
            Some(Request::Find(day)) => match self.latest(day) {
                None => Answer::NOTHING,
                Some((day, value)) => Answer::found(day, value),
            },
            None => Answer::BAD,
        }
    }

    // By the trace, as the set does. One for both would take the step back as a closure, with the map's premise on it: no plainer.
    fn withdraw(&mut self, record: &Record) -> bool {
        let Some(trace) = trace_of(record) else {
            return false;
        };
        match trace.change {
            Some(change) => self.restore(change),
            None => true,
        }
    }

    fn test(&self, earlier: &Record, later: &Record) -> bool {
        traces::cleared(trace_of(earlier), trace_of(later))
    }
}
