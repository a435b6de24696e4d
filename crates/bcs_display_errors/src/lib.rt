//! Refusals as data: where the JSON document of a value, PATH, or the name of a variant is refused, and what was expected
//! there.
#![tactic(auto)]

mod content;
mod expectations;
mod field_hints;
mod field_list;
mod hints;
mod json_outline;
mod kinds;
mod limits;
mod locations;
mod number_hints;
mod paths;
mod pointers;
mod refusals;
mod targets;
mod texts;
mod variant_hints;
mod variant_list;
mod wholes;

pub use limits::{put_limit, put_text_limit};
pub use paths::path_refusal;
pub use pointers::pointer_of;
pub use refusals::text_refusal;
pub use variant_hints::variant_refusal;
