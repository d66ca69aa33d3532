#![tactic(auto)]

pub mod bits;
pub mod object;
mod request;
mod trace;
