// Where on its counter a record applies, and how it moves it: what the bank's test compares.
ghost use Rattle.std.specs.Prelude.{◌≡◌};
ghost use Rattle.counters.specs.Counts.{ceiling};
ghost use Rattle.counters.specs.Bounds.{Bounded};
ghost use Rattle.counters.specs.Spans.{commuting, runs_in, span, tested_on_one_key, withdraws_in};

use crate::bank::CEILING;
use crate::movement::{Movement, is_reading};
use objects::records::{Answer, Record};

#[derive(Clone, Copy, Debug)]
pub struct Span {
    pub low: i64,
    pub high: i64,
    pub step: i64,
}

impl Span {
    const EVERYWHERE: Span = Span {
        low: 0,
        high: CEILING,
        step: 0,
    };

    // An empty range and no option: the comparison of two spans has one case so, and not four.
    const NOWHERE: Span = Span {
        low: 1,
        high: 0,
        step: 0,
    };

    fn new(low: i64, high: i64, step: i64) -> Span
        ensures { result ≡ span low high step }
    {
        Span { low, high, step }
    }

    // Where the record runs.
    pub fn of_run(record: &Record) -> Span
        ensures { result ≡ runs_in ceiling «record».now }
    {
        let answer = record.answer;
        match Movement::of(&record.operation) {
            Some(Movement::Add(_, n)) if answer == Answer::DONE => Span::new(0, CEILING - n, n),
            Some(Movement::Add(_, n)) if answer == Answer::FULL => Span::new(
                CEILING - n + 1,
                CEILING,
                0,
            ),
            Some(Movement::Take(_, n)) if answer == Answer::DONE => Span::new(n, CEILING, -n),
            Some(Movement::Take(_, n)) if answer == Answer::SHORT => Span::new(0, n - 1, 0),
            Some(Movement::Read(_)) if is_reading(answer) => Span::new(
                answer.value,
                answer.value,
                0,
            ),
            None if answer == Answer::BAD => Span::EVERYWHERE,
            _ => Span::NOWHERE,
        }
    }

    // Where the record's withdrawal applies.
    pub fn of_withdrawal(record: &Record) -> Span
        ensures { result ≡ withdraws_in ceiling «record».now }
    {
        let answer = record.answer;
        match Movement::of(&record.operation) {
            Some(Movement::Add(_, n)) if answer == Answer::DONE => Span::new(n, CEILING, -n),
            Some(Movement::Add(..)) if answer == Answer::FULL => Span::EVERYWHERE,
            Some(Movement::Take(_, n)) if answer == Answer::DONE => Span::new(0, CEILING - n, n),
            Some(Movement::Take(..)) if answer == Answer::SHORT => Span::EVERYWHERE,
            Some(Movement::Read(_)) if is_reading(answer) => Span::EVERYWHERE,
            None if answer == Answer::BAD => Span::EVERYWHERE,
            _ => Span::NOWHERE,
        }
    }

    // Whether a withdrawal in `self` and a run in `later` commute at every count: `low` to `high` is where both apply.
    #[tactic(auto, using(crate::proofs::Wide::wide))]
    fn commutes(self, later: Span) -> bool
        requires { (Bounded ceiling self) × (Bounded ceiling later) }
        ensures { result ≡ commuting self later }
    {
        let low = self.low.max(later.low);
        let high = self.high.min(later.high);
        if low > high {
            return true;
        }
        let still_applies = (low + later.step >= self.low) & (high + later.step <= self.high);
        let still_runs = (low + self.step >= later.low) & (high + self.step <= later.high);
        still_applies & still_runs
    }
}

// The test of two records of one key.
pub fn commute(earlier: &Record, later: &Record) -> bool
    ensures { result ≡ tested_on_one_key ceiling earlier.now later.now }
{
    Span::of_withdrawal(earlier).commutes(Span::of_run(later))
}
