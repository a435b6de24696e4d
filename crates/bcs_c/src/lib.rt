//! The static library for C: the calls of `bcs_calls`.
#![tactic(auto)]

mod exports;
