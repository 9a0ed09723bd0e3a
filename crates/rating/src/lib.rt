#![tactic(auto)]

pub mod curve;
pub mod demand;
pub mod order;
mod phase;
mod quotient;
mod ranked;
pub mod ranking;
pub mod rating;
pub mod verdict;
