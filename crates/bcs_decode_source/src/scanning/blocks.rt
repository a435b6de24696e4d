//! Skips bytes in blocks.
ghost use Rattle.bcs_decode_source.specs.Past.{bytes_run};
ghost use Rattle.bcs_decode_source.specs.Reads.{Ready, Reads};
ghost use Rattle.bcs_decode_source.specs.Sees.{OutOfMemoryOnlyInKey};

use crate::bytes::read_exact;
use crate::reader::Reader;
use crate::share::BLOCK;
use bcs_decode_spec::DecodeFault;
use bcs_io::ByteSource;

/// Skips `count` bytes.
#[inline(never)]
pub fn pass_bytes<S: ByteSource>(reader: &mut Reader<'_, S>, count: u32) -> Result<(), DecodeFault>
    requires ready { Ready S.is_failed S.allowance reader.old }
    ensures reads { Reads S.content S.is_failed S.allowance (λ x. x) result reader.old (bytes_run count) reader.new }
    ensures memory { OutOfMemoryOnlyInKey result reader.old.at.now }
{
    let mut block = [0u8; BLOCK];
    let mut left = count as usize;
    while left > 0 {
        let size = left.min(BLOCK);
        read_exact(reader, &mut block[..size])?;
        left -= size;
    }
    Ok(())
}
