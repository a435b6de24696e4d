//! Skips lists of integers in blocks.
ghost use Rattle.std.specs.Prelude.{◌≤◌};
ghost use Rattle.bcs_decode_spec.specs.Reading.{items_here, skipping};
ghost use Rattle.bcs_decode_spec.specs.Steps.{whole_here};
ghost use Rattle.bcs_decode_source.specs.Reads.{Ready, Reads};
ghost use Rattle.bcs_decode_source.specs.Sees.{OutOfMemoryOnlyInKey};

use crate::bytes::read_exact;
use crate::reader::Reader;
use crate::share::{BLOCK, share};
use bcs_decode_spec::{DecodeFault, Reason, Stop};
use bcs_io::ByteSource;
use bcs_num::GREATEST_LEN;

/// Skips `count` values of `width` bytes each, whatever the bytes are. A block never exceeds the limit of nodes.
#[inline(never)]
pub fn skip_integers<S: ByteSource>(
    reader: &mut Reader<'_, S>,
    width: usize,
    count: u64,
) -> Result<(), DecodeFault>
    requires ready { Ready S.is_failed S.allowance reader.old }
    requires small { width ≤ GREATEST_LEN }
    ensures reads { Reads S.content S.is_failed S.allowance (λ x. x) result reader.old (items_here skipping (whole_here width) count) reader.new }
    ensures memory { OutOfMemoryOnlyInKey result reader.old.at.now }
{
    let mut block = [0u8; BLOCK];
    let mut left = count;
    while left > 0 {
        let some = share(width, left, reader.at.nodes);
        if some == 0 {
            return Err(DecodeFault::Stop(Stop {
                reason: Reason::TooManyNodes,
                place: reader.at.place,
            }));
        }
        reader.at.nodes -= some;
        read_exact(reader, &mut block[..some as usize * width])?;
        left -= u64::from(some);
    }
    Ok(())
}
