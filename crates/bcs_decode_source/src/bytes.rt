//! Reads bytes from a source.
ghost use Rattle.std.specs.Prelude.{◌≡◌, ◌+◌, ◌++◌, false, true, length, Ok, OnOk, IfErr};
ghost use Rattle.bcs_decode_spec.specs.Reading.{bytes_here};
ghost use Rattle.bcs_decode_spec.specs.declared.decode_fault.DecodeFault.TheVariants.{OutOfMemory};
ghost use Rattle.bcs_decode_source.specs.Kept.{SamePlace};
ghost use Rattle.bcs_decode_source.specs.Reads.{IsStill, Ready, Reads};
ghost use Rattle.bcs_decode_spec.specs.Steps.{node_here};
ghost use Rattle.bcs_decode_source.specs.Sees.{OutOfMemoryOnlyInKey, byte_here};

use crate::progress::Progress;
use crate::reader::Reader;
use bcs_decode_spec::{DecodeFault, Reason, Stop};
use bcs_io::ByteSource;
use bcs_io::filling::fill;

/// Counts a node.
#[tactic(auto, unfolding(bcs_decode_spec::specs::Reading::node, bcs_decode_spec::specs::Reading::give))]
pub fn begin<S: ByteSource>(reader: &mut Reader<'_, S>) -> Result<(), DecodeFault>
    requires ready { Ready S.is_failed S.allowance reader.old }
    ensures reads { Reads S.content S.is_failed S.allowance (λ x. x) result reader.old node_here reader.new }
    ensures still { IsStill reader.old reader.new }
    ensures memory { OutOfMemoryOnlyInKey result reader.old.at.now }
{
    if reader.at.nodes == 0 {
        return Err(DecodeFault::Stop(Stop {
            reason: Reason::TooManyNodes,
            place: reader.at.place,
        }));
    }
    reader.at.nodes -= 1;
    Ok(())
}

/// Fills `buf` with the next bytes.
#[inline(always)]
#[tactic(auto, unfolding(bcs_decode_spec::specs::Reading::bytes_here))]
pub fn read_exact<S: ByteSource>(
    reader: &mut Reader<'_, S>,
    buf: &mut [u8],
) -> Result<(), DecodeFault>
    requires ready { Ready S.is_failed S.allowance reader.old }
    ensures reads { Reads S.content S.is_failed S.allowance (λ _. buf.new) result reader.old (bytes_here (length buf.old)) reader.new }
    ensures memory { OutOfMemoryOnlyInKey result reader.old.at.now }
    ensures len { length buf.new ≡ length buf.old }
    ensures far { OnOk result (reader.new.at.now.place ≡ reader.old.at.now.place + length buf.old) }
{
    let Ok(count) = fill(reader.source, buf) else {
        return Err(DecodeFault::Read);
    };
    reader.at.place += count as u64;
    if count < buf.len() {
        return Err(DecodeFault::Stop(Stop {
            reason: Reason::EndOfInput,
            place: reader.at.place,
        }));
    }
    record(reader.at, buf)?;
    Ok(())
}

/// Records bytes that were read, if a key is open.
fn record(at: &mut Progress, bytes: &[u8]) -> Result<(), DecodeFault>
    ensures same { SamePlace at.old at.new }
    ensures unrecorded { at.old.is_in_key ≡ false → (result ≡ Ok tt) × (at.new.kept.items ≡ at.old.kept.items) }
    ensures recorded { at.old.is_in_key ≡ true → OnOk result (at.new.kept.items ≡ at.old.kept.items ++ bytes.now) }
    ensures fault { IfErr result (λ e. e ≡ OutOfMemory) }
{
    if at.is_in_key && at.kept.extend_from_slice(bytes).is_err() {
        return Err(DecodeFault::OutOfMemory);
    }
    Ok(())
}

/// Reads a byte.
#[tactic(auto, unfolding(bcs_decode_spec::specs::Reading::chain, bcs_decode_spec::specs::Reading::give, crate::specs::Sees::byte_here))]
pub fn byte<S: ByteSource>(reader: &mut Reader<'_, S>) -> Result<u8, DecodeFault>
    requires ready { Ready S.is_failed S.allowance reader.old }
    ensures reads { Reads S.content S.is_failed S.allowance (λ x. x) result reader.old byte_here reader.new }
    ensures memory { OutOfMemoryOnlyInKey result reader.old.at.now }
{
    let found: [u8; 1] = array(reader)?;
    Ok(found[0])
}

/// Reads `N` bytes.
#[inline(always)]
pub fn array<S: ByteSource, const N: usize>(
    reader: &mut Reader<'_, S>,
) -> Result<[u8; N], DecodeFault>
    requires ready { Ready S.is_failed S.allowance reader.old }
    ensures reads { Reads S.content S.is_failed S.allowance (λ x. x) result reader.old (bytes_here N) reader.new }
    ensures memory { OutOfMemoryOnlyInKey result reader.old.at.now }
{
    let mut buf = [0u8; N];
    read_exact(reader, &mut buf)?;
    Ok(buf)
}
