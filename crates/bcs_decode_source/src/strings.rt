//! Reads byte strings and strings from a source.
ghost use Rattle.std.specs.Prelude.{◌≡◌, ◌+◌, length, string_bytes, IfOk};
ghost use Rattle.bcs_decode_spec.specs.Reading.{bytes_here, text_here};
ghost use Rattle.bcs_decode_source.specs.Reads.{Ready, Reads};

use crate::bytes::read_exact;
use crate::reader::Reader;
use crate::room::make_room;
use bcs_decode_spec::{DecodeFault, Reason, Stop};
use bcs_io::ByteSource;

/// The size of the first block, in bytes.
const FIRST_BLOCK: usize = 512;

/// The maximum size of a block, in bytes.
const LAST_BLOCK: usize = 65536;

/// Reads `count` bytes. Each block is as long as what was read before it, from `FIRST_BLOCK` to `LAST_BLOCK` bytes. So
/// memory grows with what the source really gives, whatever length the input claims.
pub fn bytes<S: ByteSource>(reader: &mut Reader<'_, S>, count: u32) -> Result<Vec<u8>, DecodeFault>
    requires ready { Ready S.is_failed S.allowance reader.old }
    ensures reads { Reads S.content S.is_failed S.allowance (λ v. v.items) result reader.old (bytes_here count) reader.new }
    ensures far { IfOk result (λ v. reader.new.at.now.place ≡ reader.old.at.now.place + length v.items) }
{
    let mut found = Vec::new(reader.alloc);
    make_room(reader, &mut found, u64::from(count))?;
    while found.len() < count as usize {
        let start = found.len();
        let size = (count as usize - start).min(start.clamp(FIRST_BLOCK, LAST_BLOCK));
        found.resize(start + size, 0)?;
        read_exact(reader, found.slice_mut(start..))?;
    }
    Ok(found)
}

/// Reads a string of `count` bytes, which must be UTF-8 (RFC 3629).
#[tactic(auto, unfolding(bcs_decode_spec::specs::Reading::chain, bcs_decode_spec::specs::Reading::give, bcs_decode_spec::specs::Reading::fail, bcs_decode_spec::specs::Reading::text_here))]
pub fn text<S: ByteSource>(reader: &mut Reader<'_, S>, count: u32) -> Result<String, DecodeFault>
    requires ready { Ready S.is_failed S.allowance reader.old }
    ensures reads { Reads S.content S.is_failed S.allowance string_bytes result reader.old (text_here count) reader.new }
{
    let start = reader.at.place;
    let found = bytes(reader, count)?;
    match simdutf8::compat::from_utf8(found.as_slice()) {
        Ok(_) => Ok(unsafe { String::from_utf8_unchecked(found) }),
        Err(error) => Err(DecodeFault::Stop(Stop {
            reason: Reason::BadUtf8,
            place: start + error.valid_up_to() as u64,
        })),
    }
}
