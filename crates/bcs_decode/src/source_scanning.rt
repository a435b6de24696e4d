//! Validates values from sources.
ghost use Rattle.std.specs.Prelude.{◌≡◌, ◌≢◌, ◌↔◌, true, Err, IsErrOf};
ghost use Rattle.bcs_registry_model.specs.View.{shape_of};
ghost use Rattle.bcs_registry_model.specs.WellFormed.{Admits};
ghost use Rattle.bcs_decode_source.specs.Reaching.{reaches_no_map};
ghost use Rattle.bcs_decode.specs.Scanned.{ScansAll, ScansFrom};

use bcs_decode_source::progress::Progress;
use bcs_decode_source::reader::Reader;
use bcs_decode_source::scanning::value;
use bcs_decode_spec::{DecodeFault, Reason, Stop};
use bcs_io::ByteSource;
use bcs_registry::{Format, Registry};
use bcs_value::Limits;
use std::alloc::Global;

/// Returns the length in bytes of the next value of `format` in a source, and consumes exactly its bytes. The errors
/// are those of [`decode_from`](crate::decode_from), and after one don't continue with the source.
///
/// Memory holds only the bytes of open keys and the last key of each open map, however long the value is. So nothing is
/// allocated if the format reaches no map.
pub fn scan_from<S: ByteSource>(
    alloc: Global,
    registry: &Registry,
    format: &Format,
    limits: &Limits,
    source: &mut S,
) -> Result<u64, DecodeFault>
    requires { Admits registry.now (shape_of format.now) }
    ensures told { ScansFrom registry.now limits.now (shape_of format.now) (S.content source.old) (S.content source.new) result }
    ensures read { IsErrOf result DecodeFault.Read ↔ S.is_failed source.new ≡ true }
    ensures memory { reaches_no_map registry.now limits.now.depth (shape_of format.now) ≡ true → result ≢ Err DecodeFault.OutOfMemory }
{
    if source.failed() {
        return Err(DecodeFault::Read);
    }
    let mut at = Progress {
        place: 0,
        known: 0,
        nodes: limits.nodes(),
        is_in_key: false,
        kept: Vec::new(alloc),
    };
    let mut reader = Reader {
        alloc,
        registry,
        source,
        at: &mut at,
    };
    value(&mut reader, format, limits.depth())?;
    Ok(at.place)
}

/// Returns the length in bytes of a source's content, if all of it is one value. If a byte follows the value, that byte
/// is consumed, and the stop is `TrailingBytes`. Other errors are those of [`scan_from`](crate::scan_from).
pub fn scan_all<S: ByteSource>(
    alloc: Global,
    registry: &Registry,
    format: &Format,
    limits: &Limits,
    source: &mut S,
) -> Result<u64, DecodeFault>
    requires { Admits registry.now (shape_of format.now) }
    ensures told { ScansAll registry.now limits.now (shape_of format.now) (S.content source.old) (S.content source.new) result }
    ensures read { IsErrOf result DecodeFault.Read ↔ S.is_failed source.new ≡ true }
    ensures memory { reaches_no_map registry.now limits.now.depth (shape_of format.now) ≡ true → result ≢ Err DecodeFault.OutOfMemory }
{
    match scan_from(alloc, registry, format, limits, source) {
        Ok(length) => match source.next(&mut [0]) {
            Ok(0) => Ok(length),
            Ok(_) => Err(DecodeFault::Stop(Stop {
                reason: Reason::TrailingBytes,
                place: length,
            })),
            Err(_) => Err(DecodeFault::Read),
        },
        Err(fault) => Err(fault),
    }
}
