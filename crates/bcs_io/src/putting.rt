//! Writes a whole slice to a sink.
ghost use Rattle.std.specs.Prelude.{◌<◌, IfErr, OnOk, length, take};
ghost use Rattle.bcs_io.specs.Taking.{TookThenFailed, Took};

use crate::sink::{ByteSink, SinkFailed};

/// Writes all of `bytes`. If the sink fails, returns the number of bytes that it had accepted before.
pub fn put_all<K: ByteSink>(bytes: &[u8], sink: &mut K) -> Result<(), u64>
    ensures whole { OnOk result (Took K.taken K.is_failed sink.old sink.new bytes.now) }
    ensures part { IfErr result (λ n. (n < length bytes.now) × TookThenFailed K.taken K.is_failed sink.old sink.new (take n bytes.now)) }
{
    let mut at = 0;
    while at < bytes.len() {
        match sink.put(&bytes[at..]) {
            Ok(taken) => at += taken,
            Err(SinkFailed) => return Err(at as u64),
        }
    }
    Ok(())
}
