// What the programs share that compare an object's test with the law that it has to decide.
#![tactic(auto)]

pub mod law;
pub mod tallies;
pub mod tried;
