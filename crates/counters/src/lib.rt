#![tactic(auto)]

pub mod bank;
mod movement;
pub mod object;
mod span;
