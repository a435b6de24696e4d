//! Which containers given bytes are exactly one value of.
#![tactic(auto)]

mod evidence;
mod lines;
mod message;
mod searching;

pub use evidence::Evidence;
pub use lines::{CandidateForm, candidate_lines};
pub use message::put_only_candidate;
pub use searching::{Candidate, candidates};
