// What the sample programs share: the movements of a day, posted on any object, and one order's movements taken back.
#![tactic(auto)]

pub mod day;
pub mod movement;
pub mod posting;
pub mod status;
pub mod words;
