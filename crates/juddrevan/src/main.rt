// A short day of movements on a counter bank, and one order's movements taken back.
#![tactic(auto)]

use counters::bank::{COUNTERS, CounterBank};
use objects::codes;
use objects::codes::Family;
use objects::object::Object;
use objects::records::Operation;
use samples::day;
use samples::movement::Movement;
use samples::posting::Posting;
use samples::status::status;
use std::process::ExitCode;

type Counts = [i64; COUNTERS];

// The order that is taken back.
const ORDER: u16 = 1;

// What a line has to be.
const FORM: &str = "ORDER add|take|read BIN AMOUNT";

fn main(rt: HostRuntime) -> anyhow::Result<ExitCode> {
    let outcome = run(&rt);
    status(&rt, "juddrevan", outcome)
}

// The same steps as over the pile. One for both would take as closures what is asked three times and how it is printed: no plainer.
fn run(rt: &HostRuntime) -> anyhow::Result<()> {
    let mut bank = CounterBank::new();
    println!(rt; "Posted:")?;
    let mut postings = day::post_all(rt, &mut bank, movement_of, FORM)?;
    let before = counts(&mut bank);
    println!(rt; "Order {ORDER} is taken back, its latest movement first:")?;
    day::take_back(rt, &mut bank, &mut postings, ORDER)?;
    let after = counts(&mut bank);
    let mut fresh = CounterBank::new();
    day::replay(&mut fresh, postings.as_slice());
    let never = counts(&mut fresh);
    println!(rt; "Bins before, after, and had the withdrawn movements never been posted:")?;
    print_bins(rt, postings.as_slice(), &before, &after, &never)
}

// A line's movement; none of a line that names no operation of the bank.
fn movement_of(line: &str) -> Option<Movement> {
    let movement = line.parse::<Movement>().ok()?;
    let row = codes::rule_of(movement.operation.code)?;
    (row.family == Family::Counter).then_some(movement)
}

// Prints, for each bin that a movement names, what it held each time.
fn print_bins(
    rt: &HostRuntime,
    postings: &[Posting],
    before: &Counts,
    after: &Counts,
    never: &Counts,
) -> anyhow::Result<()> {
    let counts = before.iter().zip(after.iter()).zip(never.iter());
    for (bin, ((before, after), never)) in counts.enumerate() {
        if named(postings, bin) {
            println!(rt; "{bin:>3}. {before}, {after}, {never}")?;
        }
    }
    Ok(())
}

// Whether a movement names the bin. A key becomes an index by `as`, and an index a key below: there is no `From` for that, and `TryFrom` would bring in a failure that cannot occur, no plainer.
fn named(postings: &[Posting], bin: usize) -> bool {
    postings
        .iter()
        .any(|posting| posting.record.operation.key as usize == bin)
}

// What each counter holds.
fn counts(bank: &mut CounterBank) -> Counts {
    let mut counts = [0; COUNTERS];
    for (key, count) in counts.iter_mut().enumerate() {
        let read = Operation {
            code: codes::READ,
            unit: 0,
            key: key as u32,
            amount: 0,
        };
        *count = bank.run(read).value;
    }
    counts
}
