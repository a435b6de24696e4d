//! Finds parts of an encoding by a path, and returns them as slices.
#![tactic(auto)]

pub mod ahead;
pub mod here;
pub mod inside;
pub mod laws;
mod part;
pub mod passing;
mod path_fault;
pub mod path_laws;
mod path_step;
mod reading;
mod step;
pub mod stepping;
pub mod variants;
pub mod walking;

pub use part::Part;
pub use path_fault::PathFault;
pub use path_step::{PathStep, steps_of};
pub use reading::read_path;
pub use step::Step;
