//! A job over the lines of its input.
pub mod block;
pub mod held_answers;
pub mod no_source;
pub mod reading;
pub mod running;
pub mod tally;
