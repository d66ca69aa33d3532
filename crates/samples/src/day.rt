// A day: movements are posted on an object, one order's are taken back, and what stands is run again on another object.
ghost use Rattle.std.specs.Prelude.{◌≡◌, ◌<◌, OnErr, length, true, ◌∷◌, IfOk, filter};
ghost use Rattle.objects.specs.Leads.{Leads};
ghost use Rattle.samples.specs.Days.{Asks, Kept, KeptOne, LeadsOnlyTo, Ran, StillLeads, posting_at, replayed, standing_records};

use crate::movement::Movement;
use crate::posting::{BadLine, Outcome, Posting};
use objects::object::Object;
use objects::records::Record;
use objects::retract::{NotWithdrawn, retract};
use std::alloc::{AllocError, Global};

// Posts the movements that standard input names, one a line, and prints each with its answer. The closure that reads a line has to be callable: that is its own, and no type of ours can hold it.
pub fn post_all<O: Object, F: Fn(&str) -> Option<Movement>>(
    rt: &HostRuntime,
    object: &mut O,
    movement_of: F,
    form: &'static str,
) -> anyhow::Result<Vec<Posting>>
    requires { F.IsAlwaysCallable movement_of }
    ensures leads { IfOk result (λ ps. Leads (O.Object.kind (O.Object.fixed object.old)) (O.Object.state object.old) (standing_records ps.items) (O.Object.state object.new)) }
    ensures keeps { O.Object.fixed object.new ≡ O.Object.fixed object.old }
{
    let mut postings = Vec::new(rt.alloc());
    for (i, text) in rt.lines(rt.alloc()).enumerate() {
        let text = text?;
        let line = i.saturating_add(1);
        let movement = movement_of(text.as_str()).ok_or(BadLine { line, form })?;
        let posting = post(object, line, movement);
        println!(rt; "{line:>3}. {posting}")?;
        postings.push(posting)?;
    }
    Ok(postings)
}

// Posts one movement, of the line with this number.
pub fn post<O: Object>(object: &mut O, line: usize, movement: Movement) -> Posting
    ensures asked { Asks movement line result }
    ensures ran { Ran (O.Object.kind (O.Object.fixed object.old)) (O.Object.state object.old) result (O.Object.state object.new) }
    ensures stands { result.standing ≡ true }
    ensures keeps { O.Object.fixed object.new ≡ O.Object.fixed object.old }
{
    let Movement { order, operation } = movement;
    let answer = object.run(operation);
    Posting {
        line,
        order,
        record: Record { operation, answer },
        standing: true,
    }
}

// Takes an order's movements back, the latest first, each past all that still stands after it, and prints what became of each.
pub fn take_back<O: Object>(
    rt: &HostRuntime,
    object: &mut O,
    postings: &mut Vec<Posting>,
    order: u16,
) -> anyhow::Result<()>
    ensures kept { Kept order postings.old.items postings.new.items }
    ensures leads { StillLeads (O.Object.kind (O.Object.fixed object.old)) postings.old.items (O.Object.state object.old) postings.new.items (O.Object.state object.new) }
    ensures keeps { O.Object.fixed object.new ≡ O.Object.fixed object.old }
{
    // By index: each turn reads the postings after the one that it changes, and no iterator lends both.
    for i in (0..postings.len()).rev() {
        let Posting {
            line,
            order: whose,
            standing,
            ..
        } = postings[i];
        if standing && whose == order {
            let taken = take_at(rt.alloc(), object, postings, i)?;
            println!(rt; "{line:>3}. {}", Outcome(taken))?;
        }
    }
    Ok(())
}

// Takes the posting at an index back past those after it, or says why it stays.
fn take_at<O: Object>(
    heap: Global,
    object: &mut O,
    postings: &mut Vec<Posting>,
    i: usize,
) -> Result<Result<(), NotWithdrawn>, AllocError>
    requires at { i < length postings.old.items }
    requires standing { (posting_at postings.old.items i).standing ≡ true }
    ensures kept { Kept (posting_at postings.old.items i).order postings.old.items postings.new.items }
    ensures leads { StillLeads (O.Object.kind (O.Object.fixed object.old)) postings.old.items (O.Object.state object.old) postings.new.items (O.Object.state object.new) }
    ensures keeps { O.Object.fixed object.new ≡ O.Object.fixed object.old }
{
    let mut posting = postings[i];
    let taken = take_one(heap, object, &mut posting, &postings[i + 1..])?;
    postings[i] = posting;
    Ok(taken)
}

// The same of a posting and those after it. What stands in the way is named by its line.
fn take_one<O: Object>(
    heap: Global,
    object: &mut O,
    posting: &mut Posting,
    later: &[Posting],
) -> Result<Result<(), NotWithdrawn>, AllocError>
    requires { posting.old.standing ≡ true }
    ensures err { OnErr result ((posting.new ≡ posting.old) × (O.Object.state object.new ≡ O.Object.state object.old)) }
    ensures kept { KeptOne posting.old.order posting.old posting.new }
    ensures leads { StillLeads (O.Object.kind (O.Object.fixed object.old)) (posting.old ∷ later.now) (O.Object.state object.old) (posting.new ∷ later.now) (O.Object.state object.new) }
    ensures keeps { O.Object.fixed object.new ≡ O.Object.fixed object.old }
{
    let records = standing(heap, later)?;
    match retract(object, &posting.record, records.as_slice()) {
        Ok(()) => {
            posting.standing = false;
            Ok(Ok(()))
        }
        Err(NotWithdrawn::Inapplicable) => Ok(Err(NotWithdrawn::Inapplicable)),
        Err(NotWithdrawn::Blocked(at)) => Ok(Err(NotWithdrawn::Blocked(line_of(later, at)))),
    }
}

// The records of the postings that still stand: no copy of the postings beside them, since a long day is asked for them once for each movement that is taken back.
fn standing(heap: Global, postings: &[Posting]) -> Result<Vec<Record>, AllocError>
    ensures { IfOk result (λ rs. rs.items ≡ standing_records postings.now) }
{
    postings
        .iter()
        .filter(|posting| posting.standing)
        .map(|posting| posting.record)
        .collect(heap)
}

// The line of the posting at this place of those that still stand; 0 past the last.
fn line_of(postings: &[Posting], at: usize) -> usize
    ensures { result ≡ (posting_at (filter (λ p. p.standing) postings.now) at).line }
{
    postings
        .iter()
        .filter(|posting| posting.standing)
        .nth(at)
        .map_or(0, |posting| posting.line)
}

// Runs what still stands, and nothing else.
pub fn replay<O: Object>(object: &mut O, postings: &[Posting])
    ensures moves { O.Object.state object.new ≡ replayed (O.Object.kind (O.Object.fixed object.old)) (O.Object.state object.old) (standing_records postings.now) }
    ensures leads { LeadsOnlyTo (O.Object.kind (O.Object.fixed object.old)) (O.Object.state object.old) (standing_records postings.now) (O.Object.state object.new) }
    ensures keeps { O.Object.fixed object.new ≡ O.Object.fixed object.old }
{
    for posting in postings {
        if posting.standing {
            let _ = object.run(posting.record.operation);
        }
    }
}
