// The pairs of records counted, by what the test says of them.
ghost use Rattle.std.specs.Prelude.{Some};
ghost use Rattle.trials.specs.Tallies.{Tallies, pairs, text};

use objects::object::Object;
use objects::records::Record;
use std::fmt;

// How many pairs the test passes and refuses, and for how many it says something else than the law.
#[derive(Clone, Copy, PartialEq, Eq, Debug, Default)]
pub struct Tally {
    pub passed: u128,
    pub refused: u128,
    pub differ: u128,
}

impl fmt::Display for Tally {
    ghost output = { λ t. Some (text t) };

    fn fmt<W: fmt::Write>(&self, f: &mut fmt::Formatter<W>) -> fmt::Result {
        let Tally {
            passed,
            refused,
            differ,
        } = self;
        write!(
            f,
            "of their pairs {passed} pass the test, {refused} do not, {differ} differ from the law"
        )
    }
}

// Counts the pairs of each record with each. `commutes` says by the places of two whether the law holds of them.
pub(crate) fn tally_of<O: Object, C: Fn(usize, usize) -> bool>(
    object: &O,
    records: &[Record],
    commutes: C,
) -> Tally
    requires { C.IsAlwaysCallable commutes }
    ensures { Tallies (λ (p, q). (O.Object.kind (O.Object.fixed object.now)).tested p q) (pairs records.now) result }
{
    let mut all = Tally::default();
    for (i, earlier) in records.iter().enumerate() {
        let row = row(object, records, earlier, |j| commutes(i, j));
        all.passed += row.passed;
        all.refused += row.refused;
        all.differ += row.differ;
    }
    all
}

// Counts those of one earlier record.
fn row<O: Object, C: Fn(usize) -> bool>(
    object: &O,
    records: &[Record],
    earlier: &Record,
    commutes: C,
) -> Tally
    requires { C.IsAlwaysCallable commutes }
    ensures { Tallies ((O.Object.kind (O.Object.fixed object.now)).tested earlier.now) records.now result }
{
    let mut row = Tally::default();
    for (j, later) in records.iter().enumerate() {
        let said = object.test(earlier, later);
        row.passed += u128::from(said);
        row.refused += u128::from(!said);
        row.differ += u128::from(said != commutes(j));
    }
    row
}
