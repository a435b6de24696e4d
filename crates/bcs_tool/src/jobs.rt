//! A job over one input: its files are read, its input is answered, and its outcome reported.
pub mod interruption;
pub mod opening;
pub mod places;
pub mod put_answer;
pub mod run_fault;
pub mod running;
pub mod scanning;
