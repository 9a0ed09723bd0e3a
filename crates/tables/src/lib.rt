#![tactic(auto)]

pub mod fault;
pub mod read;
pub mod split;
pub mod write;
