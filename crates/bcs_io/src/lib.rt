//! Sources and sinks of bytes, and reading a source line by line.
#![tactic(auto)]

pub mod filling;
pub mod laws;
mod line_buffer;
mod next_fault;
pub mod pieces;
mod putting;
mod read_source;
mod sink;
mod slice_source;
mod source;
mod taking;
mod write_sink;

pub use line_buffer::LineBuffer;
pub use next_fault::NextFault;
pub use putting::put_all;
pub use read_source::ReadSource;
pub use sink::{ByteSink, SinkFailed};
pub use slice_source::SliceSource;
pub use source::{ByteSource, SourceFailed};
pub use taking::{TakeFault, take_all};
pub use write_sink::WriteSink;
