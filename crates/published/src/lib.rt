// The published examples of paper 001: their tables, rows and states.
#![tactic(auto)]

pub mod rows;
pub mod states;
pub mod tables;
