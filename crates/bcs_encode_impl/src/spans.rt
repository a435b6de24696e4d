//! Encodes map entries in key order.
ghost use Rattle.std.specs.Prelude.{◌≡◌, map, ◌+◌, ◌<◌, ◌++◌, Err, IfOk, Ok, OnErr, OnOk, if◌then◌else◌, length, true, vec_capacity, vec_len};
ghost use Rattle.bcs_encode_impl.specs.Laying.{span_entry};
ghost use Rattle.bcs_encode_impl.specs.Writing.{sorted_entries_written};
ghost use Rattle.std.specs.List.{flat_map};
ghost use Rattle.bcs_encode_spec.specs.Entries.{entry_bytes};
ghost use Rattle.bcs_encode_spec.specs.declared.fault.EncodeFault.TheVariants.{RepeatedKey};

use bcs_key_order::spans::{Span, part, sort};
use std::alloc::AllocError;

/// Appends the entries in ascending key order, and returns whether all keys differ. If they don't, appends nothing.
/// Allocates nothing if the vector has room for the bytes.
pub fn push_in_order(
    spans: &mut [Span],
    bytes: &[u8],
    out: &mut Vec<u8>,
) -> Result<bool, AllocError>
    ensures sorted { IfOk result (λ differ. sorted_entries_written (map (span_entry bytes.now) spans.old) out.old.items
        ≡ (if differ then Ok out.new.items else Err RepeatedKey)) }
    ensures len { IfOk result (λ differ. differ ≡ true
        → length out.new.items ≡ length out.old.items + length (flat_map entry_bytes (map (span_entry bytes.now) spans.old))) }
    ensures full { OnErr result (vec_capacity out.old < vec_len out.old + length (flat_map entry_bytes (map (span_entry bytes.now) spans.old))) }
{
    if !sort(spans, bytes) {
        return Ok(false);
    }
    match push_entries(spans, bytes, out) {
        Ok(()) => Ok(true),
        Err(error) => Err(error),
    }
}

/// Appends the entries one after another.
fn push_entries(spans: &[Span], bytes: &[u8], out: &mut Vec<u8>) -> Result<(), AllocError>
    ensures appended { OnOk result (out.new.items ≡ out.old.items ++ flat_map entry_bytes (map (span_entry bytes.now) spans.now)) }
    ensures full { OnErr result (vec_capacity out.old < vec_len out.old + length (flat_map entry_bytes (map (span_entry bytes.now) spans.now))) }
{
    for span in spans {
        out.extend_from_slice(part(bytes, span.start, span.end))?;
        out.extend_from_slice(part(bytes, span.end, span.value))?;
    }
    Ok(())
}
