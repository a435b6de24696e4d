//! Where two values of a format differ, part by part.
#![tactic(auto)]

mod anchors;
mod comparing;
mod contents;
mod cuts;
mod lines;
mod lists;
mod maps;
mod naming;
mod objects;
mod outline;
mod outlining;
mod sides;
mod walk;

pub use comparing::{Difference, differences};
pub use lines::put_line;
pub use objects::{put_count, put_object};
pub use sides::Side;
pub use walk::Kind;
