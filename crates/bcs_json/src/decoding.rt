//! JSON documents from bytes.
ghost use Rattle.bcs_registry_model.specs.View.{shape_of};
ghost use Rattle.bcs_registry_model.specs.WellFormed.{Admits};
ghost use Rattle.bcs_json.specs.Showing.{DecodesWhole, Shows};

use crate::from_fault::FromFault;
use bcs_decode::{DecodeFault, Reason, Stop, decode_slice};
use bcs_json_printer::texts::show;
use bcs_registry::{Format, Registry};
use bcs_value::{Limits, Value};
use std::alloc::Global;

/// The JSON document of the value whose encoding is the whole input. Encoding that document returns the input.
///
/// `Stop`: the input isn't the encoding of a value, with the one stop. `TooNested`: it is, and the arrays and objects
/// of the document would nest more than 100 deep.
pub fn from_bcs(
    alloc: Global,
    registry: &Registry,
    format: &Format,
    limits: &Limits,
    bytes: &[u8],
) -> Result<String, FromFault>
    requires { Admits registry.now (shape_of format.now) }
    ensures { Shows registry.now limits.now (shape_of format.now) bytes.now result }
{
    registry.recall();
    let value = whole_value(alloc, registry, format, limits, bytes)?;
    let shown = show(alloc, registry, format, &value)?;
    match shown {
        Some(text) => Ok(text),
        None => Err(FromFault::TooNested),
    }
}

// The value whose encoding is the whole input.
fn whole_value(
    alloc: Global,
    registry: &Registry,
    format: &Format,
    limits: &Limits,
    bytes: &[u8],
) -> Result<Value, FromFault>
    requires { Admits registry.now (shape_of format.now) }
    ensures { DecodesWhole registry.now limits.now (shape_of format.now) bytes.now result }
{
    match decode_slice(alloc, registry, format, limits, bytes) {
        Ok((value, length)) => if length == bytes.len() {
            Ok(value)
        } else {
            Err(FromFault::Stop(Stop {
                reason: Reason::TrailingBytes,
                place: length as u64,
            }))
        },
        Err(DecodeFault::Stop(stop)) => Err(FromFault::Stop(stop)),
        Err(DecodeFault::OutOfMemory) => Err(FromFault::OutOfMemory),
        Err(DecodeFault::Read) => unreachable!(),
    }
}
