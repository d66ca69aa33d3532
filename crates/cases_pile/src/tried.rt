// What is tried of each object. The tried states are enough to read the law off:
// where two of the tried records do not commute in some lawful state, they do not in one of these.
use counters::bank::CEILING;
use maps::days::LARGEST;
use objects::codes;
use objects::records::{Answer, Operation, Record};
use sets::bits::KEYS;
use std::alloc::{AllocError, Global};
use trials::tried::{Trials, of_counters, operation, push_answered, push_operations, with_values};

// The counts and what is answered of counters stand in `cases` too. One table for both would hang `trials` on `counters` for the ceiling, or be a function of it: no plainer.
const COUNTS: [i64; 10] = [
    0,
    1,
    4,
    5,
    6,
    CEILING - 6,
    CEILING - 5,
    CEILING - 4,
    CEILING - 1,
    CEILING,
];

const AMOUNTS: [i64; 6] = [-1, 0, 1, 5, CEILING, CEILING + 1];

const READINGS: [i64; 7] = [-1, 0, 1, 5, CEILING - 5, CEILING, CEILING + 1];

const MOVED: [Answer; 6] = [
    Answer::BAD,
    Answer::DONE,
    Answer::FULL,
    Answer::SHORT,
    Answer::NEW,
    Answer {
        place: 1,
        ..Answer::DONE
    },
];

const LAST_KEY: u32 = KEYS - 1;

// How many of the first keys are members, before keys are turned.
const FILLS: [u32; 3] = [0, 128, KEYS];

// None, one or both of two keys.
const TURNS: [&[u32]; 4] = [&[], &[LAST_KEY], &[3], &[3, LAST_KEY]];

const SIZES: [i64; 7] = [-1, 0, 1, 128, 255, 256, 257];

const ASKED: [Answer; 8] = [
    Answer::NEW,
    Answer::ALREADY,
    Answer::GONE,
    Answer::ABSENT,
    Answer::YES,
    Answer::NO,
    Answer::BAD,
    Answer {
        place: 1,
        ..Answer::NEW
    },
];

const TOO_LARGE: i64 = LARGEST + 1;

// What a day holds in the tried states, and values that none can hold.
const WRITTEN: [i64; 4] = [LARGEST, -LARGEST, TOO_LARGE, -LARGEST - 1];

const DATED: [Answer; 7] = [
    Answer::NEW,
    Answer::ABSENT,
    Answer::NOTHING,
    Answer::BAD,
    Answer::CLOSED,
    Answer {
        place: 1,
        ..Answer::NEW
    },
    Answer {
        place: 1,
        ..Answer::CLOSED
    },
];

// A bank's operations, and a set's insert, on each of the keys; the counters 3 and 4 hold one of the counts. As `of_bank` of `cases`: one for both would take six tables, no plainer.
pub fn of_bank(heap: Global, keys: &[u32]) -> Result<Trials, AllocError> {
    let mut operations = Vec::from_slice(heap, &[operation(codes::ADD, 1, 3, 5)])?;
    let codes = [codes::ADD, codes::TAKE, codes::READ, codes::INSERT];
    for key in keys {
        push_operations(&mut operations, (0, *key), &codes, &AMOUNTS)?;
    }
    let answers = with_values(heap, &MOVED, &READINGS)?;
    let mut records = Vec::new(heap);
    push_answered(&mut records, operations.as_slice(), answers.as_slice())?;
    of_counters(heap, &[3, 4], &COUNTS, records)
}

// A set's operations, and a bank's add, on a key of the first word, on the last key and on one that there isn't.
pub fn of_set(heap: Global) -> Result<Trials, AllocError> {
    let mut operations = Vec::from_slice(heap, &[operation(codes::INSERT, 1, 3, 0)])?;
    let codes = [
        codes::INSERT,
        codes::REMOVE,
        codes::HAS,
        codes::SIZE,
        codes::ADD,
    ];
    for key in [3, LAST_KEY, KEYS] {
        push_operations(&mut operations, (0, key), &codes, &[0])?;
    }
    let answers = with_values(heap, &ASKED, &SIZES)?;
    let mut records = Vec::new(heap);
    push_answered(&mut records, operations.as_slice(), answers.as_slice())?;
    let probes = [
        operation(codes::HAS, 0, 3, 0),
        operation(codes::HAS, 0, LAST_KEY, 0),
        operation(codes::SIZE, 0, 0, 0),
    ];
    Ok(Trials {
        states: members(heap, 0)?,
        records,
        probes: Vec::from_slice(heap, &probes)?,
    })
}

// Each fill with each turn.
fn members(heap: Global, unit: u16) -> Result<Vec<Vec<Operation>>, AllocError> {
    let mut states = Vec::new(heap);
    for fill in FILLS {
        push_turned(heap, &mut states, unit, fill)?;
    }
    Ok(states)
}

fn push_turned(
    heap: Global,
    states: &mut Vec<Vec<Operation>>,
    unit: u16,
    fill: u32,
) -> Result<(), AllocError> {
    for turned in TURNS {
        states.push(inserts(heap, unit, fill, turned)?)?;
    }
    Ok(())
}

fn inserts(
    heap: Global,
    unit: u16,
    fill: u32,
    turned: &[u32],
) -> Result<Vec<Operation>, AllocError> {
    (0..KEYS)
        .filter(|key| (*key < fill) != turned.contains(key))
        .map(|key| operation(codes::INSERT, unit, key, 0))
        .collect(heap)
}

// A map's operations on three days, each of which is empty or has one of two values; finds also on days 9 and 300.
pub fn of_map(heap: Global, days: [u32; 3]) -> Result<Trials, AllocError> {
    let others = [
        operation(codes::PUT, 0, 512, LARGEST),
        operation(codes::PUT, 1, 12, LARGEST),
        operation(codes::FIND, 0, 9, 0),
        operation(codes::FIND, 0, 300, 0),
        operation(codes::ADD, 0, 10, 5),
    ];
    let mut operations = Vec::from_slice(heap, &others)?;
    let mut probes = Vec::new(heap);
    for day in days {
        let place = (0, day);
        push_operations(&mut operations, place, &[codes::PUT], &WRITTEN)?;
        push_operations(&mut operations, place, &[codes::DROP, codes::FIND], &[0])?;
        probes.push(operation(codes::FIND, 0, day, 0))?;
    }
    let mut records = Vec::new(heap);
    let answers = dated(heap, days)?;
    push_answered(&mut records, operations.as_slice(), answers.as_slice())?;
    Ok(Trials {
        states: filled(heap, days)?,
        records,
        probes,
    })
}

fn dated(heap: Global, days: [u32; 3]) -> Result<Vec<Answer>, AllocError> {
    let mut answers = Vec::from_slice(heap, &DATED)?;
    for value in WRITTEN {
        answers.push(Answer::old(value))?;
        answers.push(Answer {
            place: 1,
            ..Answer::old(value)
        })?;
        answers.extend(days.iter().map(|day| Answer::found(*day, value)))?;
    }
    Ok(answers)
}

// Each day with each content. A put of what is too large is bad, and leaves the day empty.
fn filled(heap: Global, days: [u32; 3]) -> Result<Vec<Vec<Operation>>, AllocError> {
    let mut states = vec![in heap; Vec::new(heap)]?;
    for day in days {
        states = with_day(heap, states.as_slice(), day)?;
    }
    Ok(states)
}

// Each state with each content of one day more.
fn with_day(
    heap: Global,
    states: &[Vec<Operation>],
    day: u32,
) -> Result<Vec<Vec<Operation>>, AllocError> {
    let mut more = Vec::new(heap);
    for state in states {
        push_contents(heap, &mut more, state.as_slice(), day)?;
    }
    Ok(more)
}

fn push_contents(
    heap: Global,
    more: &mut Vec<Vec<Operation>>,
    state: &[Operation],
    day: u32,
) -> Result<(), AllocError> {
    for value in [TOO_LARGE, LARGEST, -LARGEST] {
        let mut puts = Vec::from_slice(heap, state)?;
        puts.push(operation(codes::PUT, 0, day, value))?;
        more.push(puts)?;
    }
    Ok(())
}

// A map's trials, and a closed day: whatever is put or dropped there is answered closed.
pub fn of_lock(heap: Global, days: [u32; 3], closed: u32) -> Result<Trials, AllocError> {
    let mut trials = of_map(heap, days)?;
    let operations = [
        operation(codes::PUT, 0, closed, LARGEST),
        operation(codes::DROP, 0, closed, 0),
        operation(codes::PUT, 7, closed, TOO_LARGE),
    ];
    let answers = dated(heap, days)?;
    push_answered(&mut trials.records, &operations, answers.as_slice())?;
    Ok(trials)
}

// A bank on the left and a set on the right, with units that neither side knows.
pub fn of_pair(heap: Global) -> Result<Trials, AllocError> {
    let left = [
        operation(codes::ADD, 0, 3, 5),
        operation(codes::TAKE, 0, 3, 5),
        operation(codes::READ, 0, 3, 0),
        operation(codes::ADD, 2, 3, 5),
        operation(codes::INSERT, 0, 3, 5),
    ];
    let right = [
        operation(codes::INSERT, 1, 3, 0),
        operation(codes::REMOVE, 1, 3, 0),
        operation(codes::SIZE, 1, 3, 0),
        operation(codes::INSERT, 3, 3, 0),
        operation(codes::ADD, 1, 3, 5),
    ];
    let counted = with_values(heap, &MOVED, &[0, 5, CEILING])?;
    let asked = with_values(heap, &ASKED, &SIZES)?;
    let mut records = Vec::new(heap);
    push_answered(&mut records, &left, counted.as_slice())?;
    push_answered(&mut records, &right, asked.as_slice())?;
    let probes = [
        operation(codes::READ, 0, 3, 0),
        operation(codes::HAS, 1, 3, 0),
        operation(codes::SIZE, 1, 0, 0),
    ];
    Ok(Trials {
        states: both(heap)?,
        records,
        probes: Vec::from_slice(heap, &probes)?,
    })
}

// Each of some counts with each of some sets.
fn both(heap: Global) -> Result<Vec<Vec<Operation>>, AllocError> {
    let mut states = Vec::new(heap);
    for count in [0, 5, CEILING - 5, CEILING] {
        push_counted(heap, &mut states, count)?;
    }
    Ok(states)
}

fn push_counted(
    heap: Global,
    states: &mut Vec<Vec<Operation>>,
    count: i64,
) -> Result<(), AllocError> {
    for mut state in members(heap, 1)? {
        state.push(operation(codes::ADD, 0, 3, count))?;
        states.push(state)?;
    }
    Ok(())
}
