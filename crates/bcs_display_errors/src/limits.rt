//! The limit that a value exceeds.

use bcs_decode_spec::Reason;
use bcs_json_spec::JsonFault;
use bcs_value::Limits;
use std::alloc::AllocError;

/// Appends the option and the limit, if bytes stop because they exceed one.
pub fn put_limit(limits: &Limits, reason: Reason, out: &mut Vec<u8>) -> Result<(), AllocError> {
    match reason {
        Reason::TooDeep => put_allowed("--depth", limits.depth(), out),
        Reason::TooManyNodes => put_allowed("--nodes", limits.nodes(), out),
        _ => Ok(()),
    }
}

/// The same for a JSON document that is refused at a place in it. If it is refused as a whole, its line has the limit.
pub fn put_text_limit(
    limits: &Limits,
    fault: JsonFault,
    out: &mut Vec<u8>,
) -> Result<(), AllocError> {
    match fault {
        JsonFault::TooDeep => put_allowed("--depth", limits.depth(), out),
        _ => Ok(()),
    }
}

fn put_allowed(option: &str, limit: u32, out: &mut Vec<u8>) -> Result<(), AllocError> {
    let text = format!(in *out.allocator(); "; {option} allows {limit}")?;
    out.extend_from_slice(text.as_bytes())
}
