//! One refusal as data: where something is refused, why, and what was expected there.
#![tactic(auto)]

mod definition;
mod location;
mod members;
mod names;
mod refusal;

pub use definition::{Definition, Slot};
pub use location::Location;
pub use names::{Name, put_name};
pub use refusal::Refusal;
