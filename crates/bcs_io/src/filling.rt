//! Fills a buffer from a source.
ghost use Rattle.std.specs.Prelude.{◌≡◌, false, length};
ghost use Rattle.bcs_io.specs.Filling.{Fills};

use crate::source::{ByteSource, SourceFailed};

/// Fills `buf`, or as much of it as there is content for, and returns how many bytes. Fails if the source fails.
pub fn fill<S: ByteSource>(source: &mut S, buf: &mut [u8]) -> Result<usize, SourceFailed>
    requires good { S.is_failed source.old ≡ false }
    ensures fills { Fills S.content S.is_failed S.allowance source.old source.new result buf.new }
    ensures len { length buf.new ≡ length buf.old }
{
    let mut filled = 0;
    while filled < buf.len() {
        let count = source.next(&mut buf[filled..])?;
        if count == 0 {
            return Ok(filled);
        }
        filled += count;
    }
    Ok(filled)
}
