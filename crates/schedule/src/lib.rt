#![tactic(auto)]

pub mod place;
pub mod theorems;
