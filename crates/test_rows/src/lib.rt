//! Rows of tests: their words, and why a row has no answer.
#![tactic(auto)]

pub mod row_fault;
pub mod words;
