// Compares the counter bank's test with the law that it has to decide, read off the bank itself:
// every pair of many records, junk ones too, at every count where a range can begin or end.
#![tactic(auto)]

use counters::bank::{CEILING, CounterBank};
use objects::codes;
use objects::records::Answer;
use std::alloc::{AllocError, Global};
use trials::law::compare;
use trials::tried::{Trials, of_counters, push_answered, push_operations, with_values};

// The counts, answers and values stand in `cases_pile` too. One table for both would hang `trials` on `counters` for the ceiling, or be a function of it: no plainer.
const COUNTS: [i64; 10] = [
    0,
    1,
    4,
    5,
    6,
    CEILING - 6,
    CEILING - 5,
    CEILING - 4,
    CEILING - 1,
    CEILING,
];

const CODES: [u8; 4] = [codes::ADD, codes::TAKE, codes::READ, codes::INSERT];

const AMOUNTS: [i64; 4] = [0, 1, 5, CEILING];

// Units and keys: two counters, a unit that no bottom object has, a key that no counter has.
const PLACES: [(u16, u32); 4] = [(0, 0), (0, 1), (1, 0), (0, 32)];

const VALUES: [i64; 7] = [-1, 0, 1, 5, CEILING - 5, CEILING, CEILING + 1];

const ANSWERS: [Answer; 6] = [
    Answer::BAD,
    Answer::DONE,
    Answer::FULL,
    Answer::SHORT,
    Answer::NEW,
    Answer {
        place: 1,
        ..Answer::DONE
    },
];

// Prints how many records were tried, how many pairs the test passes and refuses, and how often test and law differ.
fn main(rt: HostRuntime) -> anyhow::Result<()> {
    let trials = of_bank(rt.alloc())?;
    let tally = compare(rt.alloc(), &CounterBank::new, &trials)?;
    let count = trials.records.len();
    // As `report` of `cases_pile` prints it: one line, no plainer as a function of `trials`.
    println!(rt; "counter bank: {count} records; {tally}")?;
    Ok(())
}

// Each operation with each answer; the first two counters hold one of the counts. As `of_bank` of `cases_pile`, on other keys: one for both would take six tables, no plainer.
fn of_bank(heap: Global) -> Result<Trials, AllocError> {
    let mut operations = Vec::new(heap);
    for place in PLACES {
        push_operations(&mut operations, place, &CODES, &AMOUNTS)?;
    }
    let answers = with_values(heap, &ANSWERS, &VALUES)?;
    let mut records = Vec::new(heap);
    push_answered(&mut records, operations.as_slice(), answers.as_slice())?;
    of_counters(heap, &[0, 1], &COUNTS, records)
}
