// A closed period: nothing is put or dropped on the days before the first open one.
ghost use Rattle.std.specs.Prelude.{◌≡◌, ℕ};
ghost use Rattle.layers.specs.Periods.{locked};

use crate::filter::Filter;
use objects::codes;
use objects::records::{Answer, Operation};

#[derive(Drop)]
pub struct PeriodLock {
    day: u32,
}

impl PeriodLock {
    // The first open day: those before it are closed.
    pub fn new(day: u32) -> PeriodLock
        ensures { result.day ≡ day }
    {
        PeriodLock { day }
    }
}

impl Filter for PeriodLock {
    ghost Fixed = { ℕ };

    ghost fixed = { λ l. l.day };

    ghost passes = { locked };

    fn pass(&self, operation: Operation) -> Result<Operation, Answer> {
        match operation.code {
            codes::PUT | codes::DROP if operation.key < self.day => Err(Answer::CLOSED),
            _ => Ok(operation),
        }
    }
}
