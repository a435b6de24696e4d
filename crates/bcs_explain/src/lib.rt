//! Reports the pieces of a value's encoding one by one, and the stop if the bytes are invalid.
#![tactic(auto)]

mod checks;
mod containers;
mod empty_elements;
mod explaining;
mod listener;
mod maps;
mod octets;
mod prefixes;
mod reporting;
mod scalars;
mod sequences;
mod strings;
mod trail;
mod walking;

pub use bcs_decode_spec::{Reason, Stop};
pub use explaining::explain;
pub use listener::{Counted, Expected, Listener, Meaning};
pub use trail::{Step, Trail};
