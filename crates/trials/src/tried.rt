// What is tried of an object.
ghost use Rattle.std.specs.Prelude.{◌≡◌, ◌++◌, IfOk, OnOk, map, pos};
ghost use Rattle.objects.specs.Answers.{holding};
ghost use Rattle.trials.specs.Tried.{answered_each, asked, asked_each, at_each};

use objects::codes::{ADD, READ};
use objects::records::{Answer, Operation, Record};
use std::alloc::{AllocError, Global};

// The states, by what is run to come there; the records; operations whose answers tell the states apart.
#[derive(Drop)]
pub struct Trials {
    pub states: Vec<Vec<Operation>>,
    pub records: Vec<Record>,
    pub probes: Vec<Operation>,
}

pub fn operation(code: u8, unit: u16, key: u32, amount: i64) -> Operation
    ensures { result ≡ asked code unit key amount }
{
    Operation {
        code,
        unit,
        key,
        amount,
    }
}

// Adds each of some codes with each of some amounts, at one unit and key.
pub fn push_operations(
    operations: &mut Vec<Operation>,
    place: (u16, u32),
    codes: &[u8],
    amounts: &[i64],
) -> Result<(), AllocError>
    ensures { OnOk result (operations.new.items ≡ operations.old.items ++ asked_each place.0 place.1 codes.now amounts.now) }
{
    let (unit, key) = place;
    for code in codes {
        let asked = amounts
            .iter()
            .map(|amount| operation(*code, unit, key, *amount));
        operations.extend(asked)?;
    }
    Ok(())
}

// Some answers, and those that tell the values.
pub fn with_values(
    heap: Global,
    answers: &[Answer],
    values: &[i64],
) -> Result<Vec<Answer>, AllocError>
    ensures { IfOk result (λ all. all.items ≡ answers.now ++ map holding values.now) }
{
    let mut all = Vec::from_slice(heap, answers)?;
    all.extend(values.iter().map(|value| Answer::value(*value)))?;
    Ok(all)
}

// Adds each operation with each answer.
pub fn push_answered(
    records: &mut Vec<Record>,
    operations: &[Operation],
    answers: &[Answer],
) -> Result<(), AllocError>
    ensures { OnOk result (records.new.items ≡ records.old.items ++ answered_each operations.now answers.now) }
{
    for operation in operations {
        let answered = answers.iter().map(|answer| Record {
            operation: *operation,
            answer: *answer,
        });
        records.extend(answered)?;
    }
    Ok(())
}

// Tries the records where the counters of the keys hold the same, one of the counts. An add of 0 is bad, and leaves the 0 that is there.
pub fn of_counters(
    heap: Global,
    keys: &[u32],
    counts: &[i64],
    records: Vec<Record>,
) -> Result<Trials, AllocError>
    ensures states { IfOk result (λ trials. map (λ state. state.items) trials.states.items ≡ map (at_each keys.now ADD) counts.now) }
    ensures records { IfOk result (λ trials. trials.records ≡ «records») }
    ensures probes { IfOk result (λ trials. trials.probes.items ≡ at_each keys.now READ (pos 0)) }
{
    let mut states = Vec::new(heap);
    for count in counts {
        states.push(at_each(heap, keys, ADD, *count)?)?;
    }
    Ok(Trials {
        states,
        records,
        probes: at_each(heap, keys, READ, 0)?,
    })
}

fn at_each(heap: Global, keys: &[u32], code: u8, amount: i64) -> Result<Vec<Operation>, AllocError>
    ensures { IfOk result (λ operations. operations.items ≡ at_each keys.now code amount) }
{
    keys.iter()
        .map(|key| operation(code, 0, *key, amount))
        .collect(heap)
}
