//! Sources and sinks that work in pieces, fail at a chosen call, or almost never end. Tests use them to check callers.
mod piece_sink;
mod piece_source;
mod repeat_source;

pub use piece_sink::PieceSink;
pub use piece_source::PieceSource;
pub use repeat_source::RepeatSource;
