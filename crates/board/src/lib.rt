#![tactic(auto)]

pub mod example;
pub mod fault;
pub mod run;
pub mod theorems;
