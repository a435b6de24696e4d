//! Registries in readable form: what `bcs show` prints, and the differences between two registries.
#![tactic(auto)]

mod as_json;
mod block;
mod change;
mod comparing;
mod formats;
mod formulas;
mod header;
mod lines;
mod names;
mod rounds;
mod show;
mod sizes;
mod uses;

pub use change::{Change, Difference, difference_lines, put_difference};
pub use comparing::differences;
pub use formats::put_format;
pub use lines::{Selection, registry_lines};
pub use rounds::container_sizes;
pub use show::{RegistryForm, show_registry};
pub use sizes::Sizes;
pub use uses::standing;
