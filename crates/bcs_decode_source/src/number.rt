//! Reads ULEB128 numbers from a source.
ghost use Rattle.std.specs.Prelude.{◌<◌, ◌≤◌, IfOk};
ghost use Rattle.bcs_decode_spec.specs.Reading.{number_here, length_here};
ghost use Rattle.bcs_decode_source.specs.Reads.{Ready, Reads};
ghost use Rattle.bcs_decode_source.specs.Sees.{OutOfMemoryOnlyInKey, tail_here, tail_limit, row_here};

use crate::bytes::{begin, byte};
use crate::reader::Reader;
use bcs_decode_spec::{DecodeFault, Reason, Stop};
use bcs_io::ByteSource;
use bcs_num::LENGTH_LIMIT;

/// Reads a number of at most 32 bits.
#[tactic(auto, using(crate::proofs::Chains::number_is))]
pub fn number<S: ByteSource>(reader: &mut Reader<'_, S>) -> Result<u32, DecodeFault>
    requires ready { Ready S.is_failed S.allowance reader.old }
    ensures reads { Reads S.content S.is_failed S.allowance (λ x. x) result reader.old number_here reader.new }
    ensures memory { OutOfMemoryOnlyInKey result reader.old.at.now }
{
    let start = reader.at.place;
    tail(reader, start, 0)
}

/// Reads the rest of a number that began at `start`, from its byte `index` on.
#[tactic(auto, using(crate::proofs::Chains::tail_step), unfolding(bcs_decode_spec::specs::Reading::chain, bcs_decode_spec::specs::Reading::give, bcs_decode_spec::specs::Reading::fail))]
fn tail<S: ByteSource>(
    reader: &mut Reader<'_, S>,
    start: u64,
    index: u8,
) -> Result<u32, DecodeFault>
    requires ready { Ready S.is_failed S.allowance reader.old }
    requires index { index ≤ 4 }
    requires start { start ≤ reader.old.at.now.place }
    ensures reads { Reads S.content S.is_failed S.allowance (λ x. x) result reader.old (tail_here start index) reader.new }
    ensures memory { OutOfMemoryOnlyInKey result reader.old.at.now }
    ensures below { IfOk result (λ n. n < tail_limit index) }
{
    let byte = byte(reader)?;
    if index == 4 && byte > 15 {
        return Err(DecodeFault::Stop(Stop {
            reason: Reason::NumberTooLarge,
            place: start,
        }));
    }
    if byte < 128 {
        if byte == 0 && index > 0 {
            return Err(DecodeFault::Stop(Stop {
                reason: Reason::LongForm,
                place: start,
            }));
        }
        return Ok(u32::from(byte));
    }
    let high = tail(reader, start, index + 1)?;
    Ok(u32::from(byte - 128) + high * 128)
}

/// Reads a length, at most 2^31 - 1.
#[tactic(auto, unfolding(bcs_decode_spec::specs::Reading::chain, bcs_decode_spec::specs::Reading::give, bcs_decode_spec::specs::Reading::fail, bcs_decode_spec::specs::Reading::length_here))]
pub fn length<S: ByteSource>(reader: &mut Reader<'_, S>) -> Result<u32, DecodeFault>
    requires ready { Ready S.is_failed S.allowance reader.old }
    ensures reads { Reads S.content S.is_failed S.allowance (λ x. x) result reader.old length_here reader.new }
    ensures memory { OutOfMemoryOnlyInKey result reader.old.at.now }
{
    let start = reader.at.place;
    let length = number(reader)?;
    if length as usize > LENGTH_LIMIT {
        return Err(DecodeFault::Stop(Stop {
            reason: Reason::LengthTooLarge,
            place: start,
        }));
    }
    Ok(length)
}

/// Begins a list or an array: returns `size`, or else reads the length.
#[inline(never)]
#[tactic(auto, unfolding(bcs_decode_spec::specs::Reading::chain, bcs_decode_spec::specs::Reading::give, crate::specs::Sees::row_here))]
pub fn row_count<S: ByteSource>(
    reader: &mut Reader<'_, S>,
    size: Option<u64>,
) -> Result<u64, DecodeFault>
    requires ready { Ready S.is_failed S.allowance reader.old }
    ensures reads { Reads S.content S.is_failed S.allowance (λ x. x) result reader.old (row_here size) reader.new }
    ensures memory { OutOfMemoryOnlyInKey result reader.old.at.now }
{
    begin(reader)?;
    match size {
        Some(size) => Ok(size),
        None => {
            let length = length(reader)?;
            Ok(u64::from(length))
        }
    }
}
