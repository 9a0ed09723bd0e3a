#![tactic(auto)]

pub mod fault;
mod field;
pub mod parse;
pub mod print;
pub mod word;
