// Compares each object's test with the law that it has to decide, read off the object itself:
// every pair of many records, junk ones too, in states that tell whether the two commute.
#![tactic(auto)]

mod tried;

use counters::bank::CounterBank;
use layers::alias::{ALIASES, Alias, FIRST_ALIAS};
use layers::filter::Filtered;
use layers::lock::PeriodLock;
use layers::pair::Pair;
use maps::days::DatedMap;
use objects::object::Object;
use sets::bits::BitSet;
use trials::law::compare;
use trials::tried::Trials;
use tried::{of_bank, of_lock, of_map, of_pair, of_set};

fn main(rt: HostRuntime) -> anyhow::Result<()> {
    let heap = rt.alloc();
    let keys = [3, 4, 999, 1000, 1001, 1002, 1031, 1032];
    // Each table of trials goes before the next is made: memory is for one at a time.
    report(
        &rt,
        "counter bank",
        CounterBank::new,
        &of_bank(heap, &[3, 4, 32])?,
    )?;
    report(&rt, "set", BitSet::new, &of_set(heap)?)?;
    report(&rt, "dated map", DatedMap::new, &of_map(heap, [0, 1, 511])?)?;
    report(&rt, "pair", new_pair, &of_pair(heap)?)?;
    report(&rt, "alias", new_alias, &of_bank(heap, &keys)?)?;
    report(
        &rt,
        "period lock",
        new_lock,
        &of_lock(heap, [10, 11, 511], 9)?,
    )
}

// Prints how many records were tried, how many of their pairs the test passes and refuses, and how often test and law differ; in `cases` one line does.
fn report<O: Object + Drop, F: Fn() -> O>(
    rt: &HostRuntime,
    name: &str,
    fresh: F,
    trials: &Trials,
) -> anyhow::Result<()>
    requires { F.IsAlwaysCallable fresh }
{
    let tally = compare(rt.alloc(), &fresh, trials)?;
    let count = trials.records.len();
    println!(rt; "{name}: {count} records; {tally}")?;
    Ok(())
}

fn new_pair() -> Pair<CounterBank, BitSet> {
    Pair::new(CounterBank::new(), BitSet::new())
}

// The first two aliases stand for key 3, the last one for key 4, the others for none.
fn new_alias() -> Filtered<Alias, CounterBank> {
    let mut targets = [FIRST_ALIAS; ALIASES];
    targets[0] = 3;
    targets[1] = 3;
    targets[ALIASES - 1] = 4;
    Filtered::new(Alias::new(targets), CounterBank::new())
}

// The days before day 10 are closed.
fn new_lock() -> Filtered<PeriodLock, DatedMap> {
    Filtered::new(PeriodLock::new(10), DatedMap::new())
}
