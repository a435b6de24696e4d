//! Decodes values from slices.
ghost use Rattle.std.specs.Prelude.{◌≡◌, ◌≢◌, ℕ, true, Err, IfOk};
ghost use Rattle.bcs_registry_model.specs.View.{shape_of};
ghost use Rattle.bcs_registry_model.specs.WellFormed.{Admits};
ghost use Rattle.bcs_value_model.specs.Tree.{Tree};
ghost use Rattle.bcs_value_model.specs.View.{tree_of};
ghost use Rattle.bcs_encode_spec.specs.Encodes.{Encodes};
ghost use Rattle.bcs_decode_source.specs.Sees.{takes_no_memory};
ghost use Rattle.bcs_decode.specs.Sliced.{DecodesSlice};
ghost use Rattle.bcs_decode_spec.specs.Accepting.{IsDecoded};
ghost use Rattle.bcs_decode_spec.specs.Stopping.{Stops};
ghost use Rattle.bcs_decode_spec.specs.declared.reason.Reason.{Reason};

use crate::decoding::front;
use crate::scanning::scan;
use bcs_decode_spec::DecodeFault;
use bcs_io::SliceSource;
use bcs_registry::{Format, Registry};
use bcs_value::{Limits, Value};
use std::alloc::{AllocError, Global};

/// Decodes the value of `format` at the start of the input, and returns it with its length in bytes.
///
/// `Stop`: as for [`scan`](crate::scan), and before anything is allocated. `OutOfMemory` occurs only if the input
/// begins with a value, and never for `UNIT`, `BOOL` and integers. `Read` never occurs.
pub fn decode_slice(
    alloc: Global,
    registry: &Registry,
    format: &Format,
    limits: &Limits,
    bytes: &[u8],
) -> Result<(Value, usize), DecodeFault>
    requires { Admits registry.now (shape_of format.now) }
    ensures decodes { DecodesSlice registry.now limits.now (shape_of format.now) bytes.now result }
    ensures stopped { (e : Reason) (o : ℕ) → Stops registry.now limits.now (shape_of format.now) bytes.now e o
        → result ≡ Err (DecodeFault.Stop (record { reason = e; place = o })) }
    ensures memory { takes_no_memory (shape_of format.now) ≡ true → result ≢ Err DecodeFault.OutOfMemory }
{
    match scan(registry, format, limits, bytes) {
        Ok(length) => {
            let mut source = SliceSource::new(bytes);
            match front(alloc, registry, format, limits, length as u64, &mut source) {
                Ok((value, _)) => Ok((value, length)),
                Err(fault) => Err(fault),
            }
        }
        Err(stop) => Err(DecodeFault::Stop(stop)),
    }
}

/// Decodes an encoding that `encode` returned within the same limits. Such bytes can't stop being a value, so they
/// aren't scanned first, and the only error is out of memory. The registry need not admit the format.
pub fn decode_encoded(
    alloc: Global,
    registry: &Registry,
    format: &Format,
    limits: &Limits,
    bytes: &[u8],
) -> Result<Value, AllocError>
    requires { (t : Tree) × Encodes registry.now limits.now (shape_of format.now) t bytes.now }
    ensures { IfOk result (λ v. IsDecoded registry.now limits.now (shape_of format.now) bytes.now (tree_of v)) }
{
    let mut source = SliceSource::new(bytes);
    match front(
        alloc,
        registry,
        format,
        limits,
        bytes.len() as u64,
        &mut source,
    ) {
        Ok((value, _)) => Ok(value),
        Err(DecodeFault::OutOfMemory) => Err(AllocError),
        Err(DecodeFault::Stop(_)) => unreachable!(),
        Err(DecodeFault::Read) => unreachable!(),
    }
}
