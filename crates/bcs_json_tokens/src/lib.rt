//! Reads a value directly from the tokens of its JSON, without building a JSON tree. It gives up on anything unusual;
//! the caller then uses `bcs_json_reader`, which decides.
#![tactic(auto)]

mod containers;
mod field_places;
mod leaves;
mod names;
mod numbers;
mod parts;
mod reading;
mod refused_fields;
mod slots;
mod text;
mod validity;

pub use bcs_json_passing::given_up::GivenUp;
pub use text::value_of_text;
pub use validity::is_not_json;
