#![tactic(auto)]

pub mod fault;
pub mod listing;
mod page;
mod refusal;
mod verdict;
