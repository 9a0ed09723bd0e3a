#![tactic(auto)]

pub mod clockwork;
pub mod fault;
pub mod feed;
pub mod fit;
pub mod mark;
pub mod per_mark;
pub mod pledge;
pub mod sheet;
pub mod terms;
pub mod timed;
