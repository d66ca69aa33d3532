#![tactic(auto)]

pub mod alias;
pub mod filter;
pub mod lock;
pub mod pair;
