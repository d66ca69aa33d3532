// One movement of a day: its line, the order that it belongs to, what was asked and answered, and whether it still stands.
ghost use Rattle.std.specs.Prelude.{Some};
ghost use Rattle.samples.specs.Texts.{bad_line_text, outcome_text, posting_text};

use crate::words::{Asked, Told};
use objects::records::Record;
use objects::retract::NotWithdrawn;
use std::error::Error;
use std::fmt;

#[derive(Clone, Copy, Debug)]
pub struct Posting {
    pub line: usize,
    pub order: u16,
    pub standing: bool,
    pub record: Record,
}

impl fmt::Display for Posting {
    ghost output = { λ p. Some (posting_text p) };

    fn fmt<W: fmt::Write>(&self, f: &mut fmt::Formatter<W>) -> fmt::Result {
        let Posting { order, record, .. } = *self;
        let asked = Asked(record.operation);
        let answer = Told(record.answer);
        write!(f, "order {order} {asked}: {answer}")
    }
}

// What became of a posting that was to be taken back. What stands in the way is named by its line.
#[derive(Clone, Copy, Debug)]
pub struct Outcome(pub Result<(), NotWithdrawn>);

impl fmt::Display for Outcome {
    ghost output = { λ outcome. Some (outcome_text outcome.0) };

    fn fmt<W: fmt::Write>(&self, f: &mut fmt::Formatter<W>) -> fmt::Result {
        match self.0 {
            Ok(()) => write!(f, "withdrawn"),
            Err(reason) => write!(f, "stays: {reason}"),
        }
    }
}

// A line that is no movement, and what a movement looks like.
#[derive(Debug, Drop)]
pub struct BadLine {
    pub line: usize,
    pub form: &'static str,
}

impl fmt::Display for BadLine {
    ghost output = { λ bad. Some (bad_line_text bad.line bad.form.now) };

    fn fmt<W: fmt::Write>(&self, f: &mut fmt::Formatter<W>) -> fmt::Result {
        write!(f, "line {} is not {}", self.line, self.form)
    }
}

impl Error for BadLine {}
