//! Reads and prints the types of Move, and indexes the JSON of modules, as the public APIs of Aptos and Sui return it.
#![tactic(auto)]

mod address;
pub mod answers;
pub mod chains;
pub mod declarations;
pub mod leaf;
pub mod members;
pub mod modules;
pub mod modules_json;
pub mod move_type;
pub mod place;
pub mod printing;
pub mod qualified;
pub mod refusal;
mod repeated_members;
pub mod shown;
mod sui_types;
pub mod type_text;
pub mod words;
mod wrong_types;
