//! Validates strings in blocks.
ghost use Rattle.std.specs.Prelude.{◌≡◌, ◌+◌, ◌-◌, ◌≤◌, length, take, slice_range, OnOk};
ghost use Rattle.std.specs.Str.{IsUtf8};
ghost use Rattle.bcs_decode_spec.specs.Reading.{bytes_here};
ghost use Rattle.bcs_decode_source.specs.Past.{text_run};
ghost use Rattle.bcs_decode_source.specs.Texts.{BeginsNoText};
ghost use Rattle.bcs_decode_source.specs.Reads.{Ready, Reads};
ghost use Rattle.bcs_decode_source.specs.Sees.{OutOfMemoryOnlyInKey};

use crate::bytes::read_exact;
use crate::reader::Reader;
use crate::scanning::blocks::pass_bytes;
use crate::scanning::valid::valid_len;
use bcs_decode_spec::{DecodeFault, Reason, Stop};
use bcs_io::ByteSource;

/// The number of bytes to read at a time.
const BLOCK: u32 = 512;

/// The longest incomplete character: all bytes of a UTF-8 character but the last (RFC 3629).
const HELD: u32 = 3;

/// The number of bytes to validate at a time.
const ROOM: usize = 515;

/// Validates and skips a string of `count` bytes, a block at a time. The bytes before `good` are valid UTF-8. Those
/// from `good` to `done` may be the start of a character, and are carried over to the next block. If more than three
/// are carried over, the string is invalid whatever follows; the remaining bytes are then read only to check that they
/// exist.
#[inline(never)]
pub fn pass_text<S: ByteSource>(reader: &mut Reader<'_, S>, count: u32) -> Result<(), DecodeFault>
    requires ready { Ready S.is_failed S.allowance reader.old }
    ensures reads { Reads S.content S.is_failed S.allowance (λ x. x) result reader.old (text_run count) reader.new }
    ensures memory { OutOfMemoryOnlyInKey result reader.old.at.now }
{
    let start = reader.at.place;
    let mut block = [0u8; ROOM];
    let mut good = 0;
    let mut done = 0;
    while done < count && done - good <= HELD {
        let held = done - good;
        let size = (count - done).min(BLOCK);
        read_behind(reader, &mut block, held as usize, size as usize)?;
        done += size;
        good += settle(&mut block, (held + size) as usize) as u32;
    }
    pass_bytes(reader, count - done)?;
    if good < count {
        return Err(DecodeFault::Stop(Stop {
            reason: Reason::BadUtf8,
            place: start + u64::from(good),
        }));
    }
    Ok(())
}

/// Reads `size` bytes into the block, after the `held` ones carried over.
#[inline(always)]
fn read_behind<S: ByteSource>(
    reader: &mut Reader<'_, S>,
    block: &mut [u8],
    held: usize,
    size: usize,
) -> Result<(), DecodeFault>
    requires ready { Ready S.is_failed S.allowance reader.old }
    requires room { held + size ≤ length block.old }
    ensures reads { Reads S.content S.is_failed S.allowance (λ _. slice_range block.new held (held + size)) result reader.old (bytes_here size) reader.new }
    ensures memory { OutOfMemoryOnlyInKey result reader.old.at.now }
    ensures held { take held block.new ≡ take held block.old }
    ensures len { length block.new ≡ length block.old }
    ensures far { OnOk result (reader.new.at.now.place ≡ reader.old.at.now.place + size) }
{
    read_exact(reader, &mut block[held..held + size])
}

/// Validates the first `size` bytes of the block, moves those after the longest valid prefix to the start, and returns
/// that prefix's length.
#[inline(always)]
fn settle(block: &mut [u8], size: usize) -> usize
    requires within { size ≤ length block.old }
    ensures within { result ≤ size }
    ensures text { IsUtf8 (take result block.old) }
    ensures held { take (size - result) block.new ≡ slice_range block.old result size }
    ensures behind { BeginsNoText (slice_range block.old result size) }
    ensures len { length block.new ≡ length block.old }
{
    let valid = valid_len(&block[..size]);
    block.copy_within(valid..size, 0);
    valid
}
