//! The rules of a bench: the rows of its tables, the refusals of its calls, and in specs/ what each call does.
#![tactic(auto)]

pub mod fault;
pub mod rows;
