//! Opens containers and variants.
ghost use Rattle.std.specs.Prelude.{◌<◌, IfOk};
ghost use Rattle.bcs_decode_source.specs.Reads.{IsStill, Ready, Reads};
ghost use Rattle.bcs_decode_spec.specs.Steps.{enter_here};
ghost use Rattle.bcs_decode_source.specs.Sees.{OutOfMemoryOnlyInKey, number_node};

use crate::bytes::begin;
use crate::number::number;
use crate::reader::Reader;
use bcs_decode_spec::{DecodeFault, Reason, Stop};
use bcs_io::ByteSource;

/// Counts the node of a container. Fails with `TooDeep` if `depth` is 0.
#[inline(never)]
#[tactic(auto, using(crate::proofs::Streamed::enter_none, crate::proofs::Streamed::enter_more), unfolding(bcs_decode_spec::specs::Reading::fail_here))]
pub fn enter<S: ByteSource>(reader: &mut Reader<'_, S>, depth: u32) -> Result<(), DecodeFault>
    requires ready { Ready S.is_failed S.allowance reader.old }
    ensures reads { Reads S.content S.is_failed S.allowance (λ x. x) result reader.old (enter_here depth) reader.new }
    ensures still { IsStill reader.old reader.new }
    ensures memory { OutOfMemoryOnlyInKey result reader.old.at.now }
    ensures positive { IfOk result (λ _. 0 < depth) }
{
    if depth == 0 {
        return Err(DecodeFault::Stop(Stop {
            reason: Reason::TooDeep,
            place: reader.at.place,
        }));
    }
    begin(reader)
}

/// Reads a variant's number.
#[inline(never)]
pub fn variant_number<S: ByteSource>(reader: &mut Reader<'_, S>) -> Result<u32, DecodeFault>
    requires ready { Ready S.is_failed S.allowance reader.old }
    ensures reads { Reads S.content S.is_failed S.allowance (λ x. x) result reader.old number_node reader.new }
    ensures memory { OutOfMemoryOnlyInKey result reader.old.at.now }
{
    begin(reader)?;
    number(reader)
}
