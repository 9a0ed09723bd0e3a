#![tactic(auto)]

pub mod convert;
pub mod fault;
