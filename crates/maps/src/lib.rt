#![tactic(auto)]

pub mod days;
pub mod object;
mod request;
mod trace;
