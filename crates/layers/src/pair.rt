// Two objects side by side: an operation's unit says which one it is for.
ghost use Rattle.std.specs.Prelude.{◌≡◌};
ghost use Rattle.objects.specs.Kinds.{PlainWithdrawals};
ghost use Rattle.layers.specs.Pairs.{goes_left, halved, halved_record, paired};
ghost use Rattle.layers.specs.Lemmas.Pairs.{paired_laws};

use objects::object::Object;
use objects::records::{Answer, Operation, Record};

#[derive(Drop)]
pub struct Pair<L, R> {
    pub(crate) left: L,
    pub(crate) right: R,
}

impl<L: Object, R: Object> Pair<L, R> {
    // The third clause is of the kind: the rule on withdrawals holds of a pair if it holds of both sides.
    pub fn new(left: L, right: R) -> Pair<L, R>
        ensures left { result.left ≡ left }
        ensures right { result.right ≡ right }
        ensures withdrawals { PlainWithdrawals (L.Object.kind (L.Object.fixed left)) → PlainWithdrawals (R.Object.kind (R.Object.fixed right)) → PlainWithdrawals (paired (L.Object.kind (L.Object.fixed left)) (R.Object.kind (R.Object.fixed right))) }
    {
        Pair { left, right }
    }
}

fn goes_left(operation: Operation) -> bool
    ensures { result ≡ goes_left operation }
{
    operation.unit % 2 == 0
}

// The operation, and the record, as the chosen side takes it.
fn halve(operation: Operation) -> Operation
    ensures { result ≡ halved operation }
{
    Operation {
        unit: operation.unit / 2,
        ..operation
    }
}

fn halve_record(record: &Record) -> Record
    ensures { result ≡ halved_record «record».now }
{
    Record {
        operation: halve(record.operation),
        answer: record.answer,
    }
}

impl<L: Object, R: Object> Object for Pair<L, R> {
    ghost Fixed = { L.Object.Fixed × R.Object.Fixed };

    ghost State = { L.Object.State × R.Object.State };

    ghost kind = { λ f. paired (L.Object.kind f.0) (R.Object.kind f.1) };

    ghost fixed = { λ p. (L.Object.fixed p.left, R.Object.fixed p.right) };

    ghost state = { λ p. (L.Object.state p.left, R.Object.state p.right) };

    ghost lawful = { λ x. (L.Object.lawful x.left, R.Object.lawful x.right) };

    ghost laws = { λ x. paired_laws _ _ (L.Object.laws x.left) (R.Object.laws x.right) _ (L.Object.lawful x.left, R.Object.lawful x.right) };

    fn run(&mut self, operation: Operation) -> Answer {
        if goes_left(operation) {
            self.left.run(halve(operation))
        } else {
            self.right.run(halve(operation))
        }
    }

    fn withdraw(&mut self, record: &Record) -> bool {
        let halved = halve_record(record);
        if goes_left(record.operation) {
            self.left.withdraw(&halved)
        } else {
            self.right.withdraw(&halved)
        }
    }

    fn test(&self, earlier: &Record, later: &Record) -> bool {
        let first = halve_record(earlier);
        let second = halve_record(later);
        match (goes_left(earlier.operation), goes_left(later.operation)) {
            (true, true) => self.left.test(&first, &second),
            (false, false) => self.right.test(&first, &second),
            _ => true,
        }
    }
}
