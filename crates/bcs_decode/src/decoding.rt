//! Decodes values from sources.
ghost use Rattle.std.specs.Prelude.{◌≡◌, ◌≢◌, ◌↔◌, true, Err, IsErrOf};
ghost use Rattle.bcs_registry_model.specs.View.{shape_of};
ghost use Rattle.bcs_registry_model.specs.WellFormed.{Admits};
ghost use Rattle.bcs_decode_source.specs.Sees.{takes_no_memory};
ghost use Rattle.bcs_decode.specs.Whole.{AreKnown, DecodesAll, DecodesFrom, DecodesFront};

use bcs_decode_source::progress::Progress;
use bcs_decode_source::reader::Reader;
use bcs_decode_source::values::value;
use bcs_decode_spec::{DecodeFault, Reason, Stop};
use bcs_io::ByteSource;
use bcs_registry::{Format, Registry};
use bcs_value::{Limits, Value};
use std::alloc::Global;

/// Decodes the next value of `format` from a source, as specified by BCS, and consumes exactly its bytes.
///
/// `Stop`: the reason and the byte offset at which the bytes stop being a value within the limits. `Read`: the source
/// failed. `OutOfMemory`: an allocation failed. After an error don't continue with the source: it has given a prefix of
/// its content, which may end anywhere after `Read` or `OutOfMemory`.
///
/// Memory grows with the bytes and elements that have been read, never with a length that the input claims. Elements
/// without bytes take memory as well, up to the limit of nodes.
pub fn decode_from<S: ByteSource>(
    alloc: Global,
    registry: &Registry,
    format: &Format,
    limits: &Limits,
    source: &mut S,
) -> Result<Value, DecodeFault>
    requires { Admits registry.now (shape_of format.now) }
    ensures told { DecodesFrom registry.now limits.now (shape_of format.now) (S.content source.old) (S.content source.new) result }
    ensures read { IsErrOf result DecodeFault.Read ↔ S.is_failed source.new ≡ true }
    ensures memory { takes_no_memory (shape_of format.now) ≡ true → result ≢ Err DecodeFault.OutOfMemory }
{
    let (value, _) = front(alloc, registry, format, limits, 0, source)?;
    Ok(value)
}

/// Decodes the whole content of a source as one value. If a byte follows the value, that byte is consumed, and the stop
/// is `TrailingBytes`. Other errors are those of [`decode_from`](crate::decode_from).
pub fn decode_all<S: ByteSource>(
    alloc: Global,
    registry: &Registry,
    format: &Format,
    limits: &Limits,
    source: &mut S,
) -> Result<Value, DecodeFault>
    requires { Admits registry.now (shape_of format.now) }
    ensures told { DecodesAll registry.now limits.now (shape_of format.now) (S.content source.old) (S.content source.new) result }
    ensures read { IsErrOf result DecodeFault.Read ↔ S.is_failed source.new ≡ true }
    ensures memory { takes_no_memory (shape_of format.now) ≡ true → result ≢ Err DecodeFault.OutOfMemory }
{
    match front(alloc, registry, format, limits, 0, source) {
        Ok((value, length)) => match source.next(&mut [0]) {
            Ok(0) => Ok(value),
            Ok(_) => Err(DecodeFault::Stop(Stop {
                reason: Reason::TrailingBytes,
                place: length,
            })),
            Err(_) => Err(DecodeFault::Read),
        },
        Err(fault) => Err(fault),
    }
}

/// The next value and its length in bytes. `known` bytes are known to follow; vectors reserve capacity for the values
/// that fit into them.
pub(crate) fn front<S: ByteSource>(
    alloc: Global,
    registry: &Registry,
    format: &Format,
    limits: &Limits,
    known: u64,
    source: &mut S,
) -> Result<(Value, u64), DecodeFault>
    requires known { AreKnown known (S.content source.old) }
    ensures told { DecodesFront registry.now limits.now (shape_of format.now) (S.content source.old) (S.content source.new) result }
    ensures read { IsErrOf result DecodeFault.Read ↔ S.is_failed source.new ≡ true }
    ensures memory { takes_no_memory (shape_of format.now) ≡ true → result ≢ Err DecodeFault.OutOfMemory }
{
    if source.failed() {
        return Err(DecodeFault::Read);
    }
    let mut at = Progress {
        place: 0,
        known,
        nodes: limits.nodes(),
        is_in_key: false,
        kept: Vec::new(alloc),
    };
    let mut reader = Reader {
        alloc,
        registry,
        source,
        at: &mut at,
    };
    let mut found = Value::Unit;
    value(&mut reader, format, limits.depth(), &mut found)?;
    Ok((found, at.place))
}
