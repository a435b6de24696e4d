//! Labels of fields and variants, of which the names of parts consist.
#![tactic(auto)]

mod labels;

pub use labels::{LONGEST_KEY, is_plain, put_label};
