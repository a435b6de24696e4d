//! Mistakes in texts, without a registry: where a text stops being JSON or hexadecimal digits, which name was probably meant,
//! and how JSON Pointers escape a name.
#![tactic(auto)]

mod common_ends;
mod digits;
mod json_mistakes;
mod json_scan;
mod json_text;
mod json_tokens;
mod letters;
mod marking;
mod nearest;
mod suggestion;
mod wrong_text;

pub use digits::{PREFIX, has_prefix, wrong_digits, wrong_input_digits};
pub use json_mistakes::{Mistake, SECOND};
pub use json_text::json_mistake;
pub use marking::put_marked;
pub use nearest::NearestName;
pub use suggestion::Suggestion;
pub use wrong_text::{WrongText, input_refusal};
