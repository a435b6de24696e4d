//! What JSON documents mean: the value that a document represents, the document of a value, and the bytes of both.
#![tactic(auto)]

mod comparing;
mod decoding;
mod denoting;
mod encoding;
mod from_fault;
mod normalising;
mod print_fault;
mod printing;
mod reading;
mod spelling;
mod text_refusal;

pub use bcs_json_printer::Shown;
pub use bcs_json_spec::{JsonFault, JsonStep, laws};
pub use comparing::compare;
pub use decoding::from_bcs;
pub use encoding::{to_bcs, to_bcs_or_refusal};
pub use from_fault::FromFault;
pub use normalising::{normalise, normalise_or_refusal};
pub use print_fault::PrintFault;
pub use printing::print_value;
pub use reading::{read_value, read_value_or_refusal};
pub use text_refusal::TextRefusal;
