// A layer that sees each operation before the object below does: it passes it on, perhaps in another form, or answers it itself.
ghost use Rattle.std.specs.Prelude.{◌≡◌, Result};
ghost use Rattle.objects.specs.declared.records.Operation.{Operation};
ghost use Rattle.objects.specs.declared.records.Answer.{Answer};
ghost use Rattle.objects.specs.Kinds.{PlainWithdrawals};
ghost use Rattle.layers.specs.Filters.{filtered, passed_record};
ghost use Rattle.layers.specs.Lemmas.Filters.{filtered_laws};

use objects::object::Object;
use objects::records::{Answer, Operation, Record};

pub trait Filter {
    // What was fixed at the making, and what the filter does with an operation.
    ghost Fixed: { Type 0 };

    ghost fixed: { Self → Fixed };

    ghost passes: { Fixed → Operation → Result Operation Answer };

    // The operation as it goes below, or the filter's own answer.
    fn pass(&self, operation: Operation) -> Result<Operation, Answer>
        ensures { result ≡ passes (fixed self.now) operation };
}

// An object behind a filter.
#[derive(Drop)]
pub struct Filtered<F, O> {
    pub(crate) filter: F,
    pub(crate) below: O,
}

impl<F: Filter, O: Object> Filtered<F, O> {
    // The third clause is of the kind: behind a filter, the rule on withdrawals holds if it holds of the object below.
    pub fn new(filter: F, below: O) -> Filtered<F, O>
        ensures filter { result.filter ≡ filter }
        ensures below { result.below ≡ below }
        ensures withdrawals { PlainWithdrawals (O.Object.kind (O.Object.fixed below)) → PlainWithdrawals (filtered (O.Object.kind (O.Object.fixed below)) (F.Filter.passes (F.Filter.fixed filter))) }
    {
        Filtered { filter, below }
    }

    // The record as the object below has it; none of one that the filter answers itself.
    fn passed(&self, record: &Record) -> Option<Record>
        ensures { result ≡ passed_record (F.Filter.passes (F.Filter.fixed self.now.filter) «record».now.operation) «record».now.answer }
    {
        let operation = self.filter.pass(record.operation).ok()?;
        Some(Record {
            operation,
            answer: record.answer,
        })
    }
}

impl<F: Filter, O: Object> Object for Filtered<F, O> {
    ghost Fixed = { F.Filter.Fixed × O.Object.Fixed };

    ghost State = { O.Object.State };

    ghost kind = { λ f. filtered (O.Object.kind f.1) (F.Filter.passes f.0) };

    ghost fixed = { λ x. (F.Filter.fixed x.filter, O.Object.fixed x.below) };

    ghost state = { λ x. O.Object.state x.below };

    ghost lawful = { λ x. O.Object.lawful x.below };

    ghost laws = { λ x. filtered_laws _ _ (O.Object.laws x.below) };

    fn run(&mut self, operation: Operation) -> Answer {
        match self.filter.pass(operation) {
            Ok(passed) => self.below.run(passed),
            Err(own) => own,
        }
    }

    fn withdraw(&mut self, record: &Record) -> bool {
        let answer = record.answer;
        match self.filter.pass(record.operation) {
            Ok(operation) => self.below.withdraw(&Record { operation, answer }),
            Err(own) => answer == own,
        }
    }

    // What the filter answered itself has moved nothing and seen nothing.
    fn test(&self, earlier: &Record, later: &Record) -> bool {
        match (self.passed(earlier), self.passed(later)) {
            (Some(earlier), Some(later)) => self.below.test(&earlier, &later),
            _ => true,
        }
    }
}
