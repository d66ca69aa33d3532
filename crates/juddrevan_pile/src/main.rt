// A short day of movements on a pile of objects, and one order's movements taken back.
#![tactic(auto)]

mod movement;
mod pile;

use movement::{movement_of, question};
use objects::object::Object;
use objects::records::{Answer, Operation};
use pile::new_pile;
use samples::day;
use samples::posting::Posting;
use samples::status::status;
use samples::words::{Asked, Told};
use std::alloc::{AllocError, Global};
use std::process::ExitCode;

// The order that is taken back.
const ORDER: u16 = 1;

// What a line has to be.
const FORM: &str = "ORDER VERB KEY AMOUNT";

fn main(rt: HostRuntime) -> anyhow::Result<ExitCode> {
    let outcome = run(&rt);
    status(&rt, "juddrevan", outcome)
}

// The same steps as over the bank. One for both would take as closures what is asked three times and how it is printed: no plainer.
// The answers come in three lists, zipped where they are printed: one list of rows would be filled in three steps, with gaps until the last, no plainer.
fn run(rt: &HostRuntime) -> anyhow::Result<()> {
    let mut pile = new_pile();
    println!(rt; "Posted:")?;
    let mut postings = day::post_all(rt, &mut pile, movement_of, FORM)?;
    let questions = questions(rt.alloc(), postings.as_slice())?;
    let before = ask(rt.alloc(), &mut pile, questions.as_slice())?;
    println!(rt; "Order {ORDER} is taken back, its latest movement first:")?;
    day::take_back(rt, &mut pile, &mut postings, ORDER)?;
    let after = ask(rt.alloc(), &mut pile, questions.as_slice())?;
    let mut fresh = new_pile();
    day::replay(&mut fresh, postings.as_slice());
    let never = ask(rt.alloc(), &mut fresh, questions.as_slice())?;
    println!(rt; "Before, after, and had the withdrawn movements never been posted:")?;
    let answers = before.iter().zip(after.iter()).zip(never.iter());
    for (question, ((before, after), never)) in questions.iter().zip(answers) {
        println!(rt;
            "  {}: {}, {}, {}",
            Asked(*question),
            Told(*before),
            Told(*after),
            Told(*never)
        )?;
    }
    Ok(())
}

// What the movements are about, each once.
fn questions(heap: Global, postings: &[Posting]) -> Result<Vec<Operation>, AllocError> {
    let mut questions = Vec::new(heap);
    for posting in postings {
        let asked = question(posting.record.operation);
        if !questions.as_slice().contains(&asked) {
            questions.push(asked)?;
        }
    }
    Ok(questions)
}

fn ask<O: Object>(
    heap: Global,
    object: &mut O,
    questions: &[Operation],
) -> Result<Vec<Answer>, AllocError> {
    let mut answers = Vec::new(heap);
    for question in questions {
        answers.push(object.run(*question))?;
    }
    Ok(answers)
}
