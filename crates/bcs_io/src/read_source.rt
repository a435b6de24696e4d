//! A reader as a source.
ghost use Rattle.std.specs.Prelude.{◌≡◌, ◌+◌, ◌-◌, ◌<◌, ◌^◌, true, false, IfOk, IsErr};
ghost use Rattle.std.proofs.Common.{arith};
ghost use Rattle.bcs_io.specs.Giving.{Gives};

use crate::source::{ByteSource, SourceFailed};
use std::io::Read;

/// The bytes of a reader. Any read error is a failure, and nothing is read after it. Since a reader may never end, it
/// also fails after 18446744073709551615 bytes.
#[derive(Drop)]
pub struct ReadSource<R> {
    reader: R,
    given: u64,
    has_failed: bool,
}

impl<R: Read> ReadSource<R> {
    ghost use Rattle.bcs_io.specs.ReadSource.{reader_of, allowance_of, failed};

    pub fn new(reader: R) -> Self
        ensures reader { reader_of result ≡ reader }
        ensures allowance { allowance_of result ≡ 2 ^ 64 - 1 }
        ensures fresh { failed result ≡ false }
    {
        ReadSource {
            reader,
            given: 0,
            has_failed: false,
        }
    }
}

// Its content is what the reader has left.
impl<R: Read> ByteSource for ReadSource<R> {
    ghost use Rattle.bcs_io.specs.ReadSource.{reader_of, allowance_of, failed};

    ghost content = { λ source. R.remaining (reader_of source) };

    ghost is_failed = { failed };

    ghost allowance = { allowance_of };

    ghost bounded = { λ source. Prim.omega arith };

    fn next(&mut self, buf: &mut [u8]) -> Result<usize, SourceFailed>
        ensures gives { Gives (λ source. R.remaining (reader_of source)) failed allowance_of
            self.old self.new result buf.new }
        ensures counts { IfOk result (λ n. allowance_of self.new + n ≡ allowance_of self.old) }
        ensures spent { allowance_of self.old ≡ 0 → IsErr result }
        ensures leaves { failed self.old ≡ true → self.new ≡ self.old }
    {
        let left = u64::MAX - self.given;
        if self.has_failed || left == 0 {
            self.has_failed = true;
            return Err(SourceFailed);
        }
        let most = buf.len().min(left as usize);
        match self.reader.read(&mut buf[..most]) {
            Ok(count) => {
                self.given += count as u64;
                Ok(count)
            }
            Err(_) => {
                self.has_failed = true;
                Err(SourceFailed)
            }
        }
    }

    fn failed(&self) -> bool {
        self.has_failed
    }
}
