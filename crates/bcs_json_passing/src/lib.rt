//! Passes JSON that isn't read, after a part of it was refused, and says why the reader of tokens gave up.
#![tactic(auto)]

pub mod given_up;
pub mod others;
pub mod passing;
pub mod refusing;
pub mod steps;
