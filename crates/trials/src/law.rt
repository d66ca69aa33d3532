// The law that an object's test has to decide, read off the object itself.
ghost use Rattle.std.specs.Prelude.{IfOk};
ghost use Rattle.trials.specs.Tallies.{Tallies, pairs};

use crate::tallies::{Tally, tally_of};
use crate::tried::Trials;
use objects::object::Object;
use objects::records::{Operation, Record};
use objects::rerun::rerun;
use std::alloc::{AllocError, Global};
use std::collections::BTreeSet;

// Two records by their places in the list, the earlier first. A set of the records would need an order on records, which nothing else asks for: no plainer.
type Places = (usize, usize);

// Compares the test with the law for every pair of the records. `fresh` makes the object anew for each trial.
// `IsAlwaysCallable` stands wherever a closure is called: it is the closure's, and no type of ours can hold it.
pub fn compare<O: Object + Drop, F: Fn() -> O>(
    heap: Global,
    fresh: &F,
    trials: &Trials,
) -> Result<Tally, AllocError>
    requires { F.IsAlwaysCallable fresh.now }
    ensures { IfOk result (λ tally. (object : O) × F.post fresh.now object × Tallies (λ (p, q). (O.Object.kind (O.Object.fixed object)).tested p q) (pairs trials.now.records.items) tally) }
{
    let mut broken = BTreeSet::new(heap);
    for state in trials.states.iter() {
        let state = state.as_slice();
        let at = || led(fresh, state);
        break_pairs(heap, &at, trials, &mut broken)?;
    }
    let commutes = |i, j| !broken.contains(&(i, j));
    Ok(tally_of(&fresh(), trials.records.as_slice(), commutes))
}

// Notes the pairs that do not commute in the state in which `at` makes the object.
fn break_pairs<O: Object + Drop, F: Fn() -> O>(
    heap: Global,
    at: &F,
    trials: &Trials,
    broken: &mut BTreeSet<Places>,
) -> Result<(), AllocError>
    requires { F.IsAlwaysCallable at.now }
{
    let probes = trials.probes.as_slice();
    let records = trials.records.iter().enumerate();
    let running: Vec<(usize, &Record)> = records
        .filter(|(_, q)| rerun(&mut at(), q))
        .collect(heap)?;
    for (i, p) in trials.records.iter().enumerate() {
        if at().withdraw(p) {
            let unlike = running.iter().filter(|(_, q)| !commute(at, p, q, probes));
            broken.extend(unlike.map(|(j, _)| (i, *j)))?;
        }
    }
    Ok(())
}

// The law at one state, in which p's withdrawal applies and q runs: both ways round go and come to one state.
fn commute<O: Object + Drop, F: Fn() -> O>(
    at: &F,
    p: &Record,
    q: &Record,
    probes: &[Operation],
) -> bool
    requires { F.IsAlwaysCallable at.now }
{
    let mut withdrawn = at();
    let mut moved = at();
    let _ = withdrawn.withdraw(p);
    let _ = moved.run(q.operation);
    moved.withdraw(p)
        && rerun(&mut withdrawn, q)
        && probes
            .iter()
            .all(|probe| withdrawn.run(*probe) == moved.run(*probe))
}

// A fresh object, led to a state.
fn led<O: Object, F: Fn() -> O>(fresh: &F, operations: &[Operation]) -> O
    requires { F.IsAlwaysCallable fresh.now }
{
    let mut object = fresh();
    for operation in operations {
        let _ = object.run(*operation);
    }
    object
}
