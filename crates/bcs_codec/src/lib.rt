//! Binary Canonical Serialization (BCS) for serde-reflection registries: the one crate to depend on. It re-exports the
//! public types, functions, limits and faults of the crates below, and defines none of its own.
#![tactic(auto)]

pub use bcs_decode::{
    DecodeFault, Part, Reason, Step, Stop, decode_all, decode_encoded, decode_from, decode_slice,
    part, scan, scan_all, scan_from,
};
pub use bcs_display_example::{
    ExampleForm, ExampleOptions, ExampleOptionsFault, ExampleTextFault, example_text, example_with,
};
pub use bcs_display_pieces::{
    CallFault, Explanation, MoveKind, RefusedCall, RefusedView, Stopped, ViewKind, ViewText, Views,
    explain_text, put_notes, stop_refusal,
};
pub use bcs_display_registry::{
    Change, Difference, RegistryForm, Sizes, container_sizes, difference_lines, differences,
    show_registry,
};
pub use bcs_display_schema::schema_text;
pub use bcs_display_text::style::{Form, Paint, Style};
pub use bcs_encode::{EncodeFault, WriteFault, canonicalise, encode, encode_by_entries, write};
pub use bcs_explain::{Counted, Expected, Listener, Meaning, Step as TrailStep, Trail, explain};
pub use bcs_io::{
    ByteSink, ByteSource, ReadSource, SinkFailed, SliceSource, SourceFailed, WriteSink, pieces,
};
pub use bcs_json::{
    FromFault, JsonFault, JsonStep, PrintFault, Shown, TextRefusal, compare, from_bcs, normalise,
    normalise_or_refusal, print_value, read_value, read_value_or_refusal, to_bcs,
    to_bcs_or_refusal,
};
pub use bcs_num::{NumFault, Width};
pub use bcs_registry::{
    Container, Format, GrowthFault, Named, Registry, RegistryFault, VariantFormat,
};
pub use bcs_value::{Limits, Value, depth, fits_loosely, has_format, nodes, same};
