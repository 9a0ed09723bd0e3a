#![tactic(auto)]

pub mod book;
pub mod draft;
pub mod fault;
pub mod row;
mod table;
pub mod word;
