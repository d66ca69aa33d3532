// The tags of answers, and the answers that the rules name.
ghost use Rattle.std.specs.Prelude.{◌≡◌};
ghost use Rattle.objects.specs.Answers.{found, holding, is_value_to, old, plain_answers, tags};

use crate::records::Answer;

// Numbers and no enum: every number is a legal tag, and a record keeps it as it came.
pub const BAD: u8 = 0;

pub const DONE: u8 = 1;

pub const FULL: u8 = 2;

pub const SHORT: u8 = 3;

pub const VALUE: u8 = 4;

pub const NEW: u8 = 5;

pub const ALREADY: u8 = 6;

pub const GONE: u8 = 7;

pub const ABSENT: u8 = 8;

pub const YES: u8 = 9;

pub const NO: u8 = 10;

pub const OLD: u8 = 11;

pub const FOUND: u8 = 12;

pub const NOTHING: u8 = 13;

pub const CLOSED: u8 = 14;

// Every tag, each at the place that its number names.
pub fn all_tags() -> [u8; 15]
    ensures { result ≡ tags }
{
    [
        BAD, DONE, FULL, SHORT, VALUE, NEW, ALREADY, GONE, ABSENT, YES, NO, OLD, FOUND, NOTHING,
        CLOSED,
    ]
}

// Every answer that says no more than its tag, by ascending tag.
pub fn plain_answers() -> [Answer; 12]
    ensures { result ≡ plain_answers }
{
    [
        Answer::BAD,
        Answer::DONE,
        Answer::FULL,
        Answer::SHORT,
        Answer::NEW,
        Answer::ALREADY,
        Answer::GONE,
        Answer::ABSENT,
        Answer::YES,
        Answer::NO,
        Answer::NOTHING,
        Answer::CLOSED,
    ]
}

impl Answer {
    pub const BAD: Answer = Answer {
        tag: BAD,
        place: 0,
        value: 0,
    };

    pub const DONE: Answer = Answer {
        tag: DONE,
        ..Answer::BAD
    };

    pub const FULL: Answer = Answer {
        tag: FULL,
        ..Answer::BAD
    };

    pub const SHORT: Answer = Answer {
        tag: SHORT,
        ..Answer::BAD
    };

    pub const NEW: Answer = Answer {
        tag: NEW,
        ..Answer::BAD
    };

    pub const ALREADY: Answer = Answer {
        tag: ALREADY,
        ..Answer::BAD
    };

    pub const GONE: Answer = Answer {
        tag: GONE,
        ..Answer::BAD
    };

    pub const ABSENT: Answer = Answer {
        tag: ABSENT,
        ..Answer::BAD
    };

    pub const YES: Answer = Answer {
        tag: YES,
        ..Answer::BAD
    };

    pub const NO: Answer = Answer {
        tag: NO,
        ..Answer::BAD
    };

    pub const NOTHING: Answer = Answer {
        tag: NOTHING,
        ..Answer::BAD
    };

    pub const CLOSED: Answer = Answer {
        tag: CLOSED,
        ..Answer::BAD
    };

    // What a counter holds, or how many members a set has. `value` and `old` differ in the tag alone: each is one literal, under the rule's own name.
    pub fn value(held: i64) -> Answer
        ensures { result ≡ holding held }
    {
        Answer {
            tag: VALUE,
            place: 0,
            value: held,
        }
    }

    // Whether this is the answer value, with a value from 0 to this.
    pub fn is_value_to(self, most: i64) -> bool
        ensures { result ≡ is_value_to most self }
    {
        self == Answer::value(self.value) && (0..=most).contains(&self.value)
    }

    // The value that a day held before.
    pub fn old(before: i64) -> Answer
        ensures { result ≡ old before }
    {
        Answer {
            tag: OLD,
            place: 0,
            value: before,
        }
    }

    // The day on which a value was found, and the value.
    pub fn found(day: u32, held: i64) -> Answer
        ensures { result ≡ found day held }
    {
        Answer {
            tag: FOUND,
            place: day,
            value: held,
        }
    }
}
