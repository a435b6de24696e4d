//! Checks the order of keys when a map is read.
ghost use Rattle.std.specs.Prelude.{◌≡◌, IfErr};
ghost use Rattle.bcs_decode_spec.specs.Reading.{key_after};
ghost use Rattle.bcs_key_order.specs.Following.{Validates, key_bytes};

use bcs_decode_spec::{Reason, Stop};
use std::cmp::Ordering;

/// Checks that `key`, which starts at place `start`, is above the last key, if there is one. Stops with `KeyRepeated`
/// if they are equal, and with `KeyOrder` if it is below.
#[inline(never)]
#[tactic(auto, unfolding(bcs_decode_spec::specs::Reading::key_after, bcs_decode_spec::specs::Reading::give, bcs_decode_spec::specs::Reading::fail))]
pub fn follows(last: Option<&[u8]>, key: &[u8], start: u64) -> Result<(), Stop>
    ensures validates { Validates result (key_after (key_bytes last.entry) key.now start) }
    ensures place { IfErr result (λ stop. stop.place ≡ start) }
{
    let Some(last) = last else {
        return Ok(());
    };
    match last.cmp(key) {
        Ordering::Less => Ok(()),
        Ordering::Equal => Err(Stop {
            reason: Reason::KeyRepeated,
            place: start,
        }),
        Ordering::Greater => Err(Stop {
            reason: Reason::KeyOrder,
            place: start,
        }),
    }
}
