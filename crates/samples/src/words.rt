// Operations and answers in words.
ghost use Rattle.std.specs.Prelude.{◌≡◌, Some};
ghost use Rattle.samples.specs.Texts.{asked_text, told_text, verb_text, word_text};

use objects::records::{Answer, Operation};
use objects::{answers, codes};
use std::fmt;

// What is done to a key that stands alone.
fn verb(code: u8) -> &'static str
    ensures { result.now ≡ verb_text code }
{
    match code {
        codes::READ => "reads bin",
        codes::INSERT => "inserts key",
        codes::REMOVE => "removes key",
        codes::HAS => "asks for key",
        codes::DROP => "drops day",
        _ => "finds day",
    }
}

// An answer that says no more than its tag.
fn word(tag: u8) -> &'static str
    ensures { result.now ≡ word_text tag }
{
    match tag {
        answers::DONE => "done",
        answers::FULL => "full",
        answers::SHORT => "short",
        answers::NEW => "new",
        answers::ALREADY => "already",
        answers::GONE => "gone",
        answers::ABSENT => "absent",
        answers::YES => "yes",
        answers::NO => "no",
        answers::NOTHING => "nothing",
        answers::CLOSED => "closed",
        _ => "bad",
    }
}

// An operation in words.
#[derive(Drop)]
pub struct Asked(pub Operation);

impl fmt::Display for Asked {
    ghost output = { λ o. Some (asked_text o.0) };

    fn fmt<W: fmt::Write>(&self, f: &mut fmt::Formatter<W>) -> fmt::Result {
        let key = self.0.key;
        let amount = self.0.amount;
        match self.0.code {
            codes::ADD => write!(f, "adds {amount} to bin {key}"),
            codes::TAKE => write!(f, "takes {amount} from bin {key}"),
            codes::PUT => write!(f, "puts {amount} on day {key}"),
            codes::SIZE => write!(f, "counts the keys"),
            code => write!(f, "{} {key}", verb(code)),
        }
    }
}

// An answer in words.
#[derive(Drop)]
pub struct Told(pub Answer);

impl fmt::Display for Told {
    ghost output = { λ a. Some (told_text a.0) };

    fn fmt<W: fmt::Write>(&self, f: &mut fmt::Formatter<W>) -> fmt::Result {
        let place = self.0.place;
        let value = self.0.value;
        match self.0.tag {
            answers::VALUE => write!(f, "{value}"),
            answers::OLD => write!(f, "old {value}"),
            answers::FOUND => write!(f, "{value} of day {place}"),
            tag => write!(f, "{}", word(tag)),
        }
    }
}
