// The set as an object.
ghost use Rattle.std.specs.Prelude.{◌≡◌, Bool, List, is_some};
ghost use Rattle.std.specs.Option.{unwrap_or};
ghost use Rattle.sets.specs.Kind.{key_set};
ghost use Rattle.sets.specs.Members.{member, size, turned};
ghost use Rattle.sets.specs.Words.{members_of};
ghost use Rattle.sets.specs.Lemmas.Words.{members_lawful};
ghost use Rattle.sets.specs.Lemmas.Laws.{key_set_laws};

use crate::bits::{BitSet, KEYS};
use crate::request::Request;
use crate::trace::trace_of;
use objects::object::Object;
use objects::records::{Answer, Operation, Record};
use objects::traces;

const WORD_BITS: u32 = 64;

// A key becomes an index by `as` here and below: there is no `From` for that, and `TryFrom` would bring in a failure that cannot occur, no plainer.
impl BitSet {
    fn has(&self, key: u32) -> bool
        ensures { result ≡ member (members_of self.now.words) key }
    {
        self.words
            .get((key / WORD_BITS) as usize)
            .is_some_and(|word| (word >> (key % WORD_BITS)) % 2 == 1)
    }

    // Turns a key's membership where it is `from`, and says whether it did.
    fn turn(&mut self, key: u32, from: bool) -> bool
        ensures turns { result ≡ is_some (turned (members_of self.old.words) key from) }
        ensures after { members_of self.new.words ≡ unwrap_or (turned (members_of self.old.words) key from) (members_of self.old.words) }
    {
        if self.has(key) != from {
            return false;
        }
        // tried: `get_mut`, after whose write the check knows no word of the array
        if key < KEYS {
            self.words[(key / WORD_BITS) as usize] ^= 1 << (key % WORD_BITS);
        }
        true
    }

    // How many members there are. The project asks for the four counts of ones, added.
    fn size(&self) -> u32
        ensures { result ≡ size (members_of self.now.words) }
    {
        let [a, b, c, d] = self.words;
        a.count_ones() + b.count_ones() + c.count_ones() + d.count_ones()
    }
}

impl Object for BitSet {
    ghost Fixed = { Unit {0} };

    ghost State = { List Bool };

    ghost kind = { λ _. key_set };

    ghost fixed = { λ _. tt };

    ghost state = { λ s. members_of s.words };

    ghost lawful = { λ x. members_lawful x.words };

    ghost laws = { λ x. key_set_laws };

    fn run(&mut self, operation: Operation) -> Answer {
        match Request::of(&operation) {
            Some(Request::Insert(key)) => {
                if self.turn(key, false) {
                    Answer::NEW
                } else {
                    Answer::ALREADY
                }
            }
            Some(Request::Remove(key)) => {
                if self.turn(key, true) {
                    Answer::GONE
                } else {
                    Answer::ABSENT
                }
            }
            Some(Request::Has(key)) => {
                if self.has(key) {
                    Answer::YES
                } else {
                    Answer::NO
                }
            }
            Some(Request::Size) => Answer::value(i64::from(self.size())),
            None => Answer::BAD,
        }
    }

    // By the trace, as the map does. One for both would take the step back as a closure, with the map's premise on it: no plainer.
    fn withdraw(&mut self, record: &Record) -> bool {
        let Some(trace) = trace_of(record) else {
            return false;
        };
        match trace.change {
            Some(change) => self.turn(change.place, change.after),
            None => true,
        }
    }

    fn test(&self, earlier: &Record, later: &Record) -> bool {
        traces::cleared(trace_of(earlier), trace_of(later))
    }
}
