//! The command line and the standard streams: what the user types and sees.
pub mod command_line;
pub mod entry;
pub mod reporting;
pub mod responding;
pub mod visible;
