#![tactic(auto)]

pub mod answers;
pub mod codes;
pub mod object;
pub mod records;
pub mod rerun;
pub mod retract;
pub mod traces;
