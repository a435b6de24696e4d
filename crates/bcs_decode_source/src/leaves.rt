//! Reads values without parts, each into the caller's slot. Those that only `leaf` reads are inlined there, so that the
//! width is a constant where the bytes are read.
ghost use Rattle.std.specs.Prelude.{IsErr};
ghost use Rattle.bcs_value_model.specs.Tree.{unit as no_value};
ghost use Rattle.bcs_num.specs.Le.{width_of};
ghost use Rattle.bcs_value_model.specs.View.{tree_of};
ghost use Rattle.bcs_decode_spec.specs.Reading.{flag_here, unsigned_here, signed_here};
ghost use Rattle.bcs_decode_source.specs.Reads.{IsStill, Ready, Reads};
ghost use Rattle.bcs_decode_source.specs.Sees.{OutOfMemoryOnlyInKey, flag_node, unit_leaf, truth_leaf, unsigned_leaf, signed_leaf, unsupported_leaf, text_leaf, bytes_leaf};

use crate::bytes::{array, begin, byte};
use crate::number::length;
use crate::reader::Reader;
use crate::strings::{bytes, text};
use bcs_decode_spec::{DecodeFault, Reason, Stop};
use bcs_io::ByteSource;
use bcs_num::Width;
use bcs_value_model::Value;

/// Reads a byte that must be `00` or `01`. The stop for any other byte has the reason `bad`.
#[tactic(auto, using(crate::proofs::Chains::flag_is), unfolding(bcs_decode_spec::specs::Reading::chain, bcs_decode_spec::specs::Reading::give, bcs_decode_spec::specs::Reading::fail))]
pub fn flag<S: ByteSource>(reader: &mut Reader<'_, S>, bad: Reason) -> Result<bool, DecodeFault>
    requires ready { Ready S.is_failed S.allowance reader.old }
    ensures reads { Reads S.content S.is_failed S.allowance (λ x. x) result reader.old (flag_here bad) reader.new }
    ensures memory { OutOfMemoryOnlyInKey result reader.old.at.now }
{
    let start = reader.at.place;
    let byte = byte(reader)?;
    if byte > 1 {
        return Err(DecodeFault::Stop(Stop {
            reason: bad,
            place: start,
        }));
    }
    Ok(byte == 1)
}

/// Reads the tag byte of an option.
#[inline(never)]
pub fn flag_node<S: ByteSource>(reader: &mut Reader<'_, S>) -> Result<bool, DecodeFault>
    requires ready { Ready S.is_failed S.allowance reader.old }
    ensures reads { Reads S.content S.is_failed S.allowance (λ x. x) result reader.old flag_node reader.new }
    ensures memory { OutOfMemoryOnlyInKey result reader.old.at.now }
{
    begin(reader)?;
    flag(reader, Reason::BadOption)
}

/// Reads an unsigned integer, in little-endian order.
#[inline(always)]
#[tactic(auto, unfolding(bcs_decode_spec::specs::Reading::chain, bcs_decode_spec::specs::Reading::give, bcs_decode_spec::specs::Reading::unsigned_here))]
pub fn unsigned<S: ByteSource>(
    reader: &mut Reader<'_, S>,
    width: Width,
) -> Result<u128, DecodeFault>
    requires ready { Ready S.is_failed S.allowance reader.old }
    ensures reads { Reads S.content S.is_failed S.allowance (λ x. x) result reader.old (unsigned_here (width_of width)) reader.new }
    ensures memory { OutOfMemoryOnlyInKey result reader.old.at.now }
{
    match width {
        Width::W1 => Ok(u128::from(u8::from_le_bytes(array(reader)?))),
        Width::W2 => Ok(u128::from(u16::from_le_bytes(array(reader)?))),
        Width::W4 => Ok(u128::from(u32::from_le_bytes(array(reader)?))),
        Width::W8 => Ok(u128::from(u64::from_le_bytes(array(reader)?))),
        Width::W16 => Ok(u128::from_le_bytes(array(reader)?)),
    }
}

/// Reads a signed integer: two's complement, in little-endian order.
#[inline(always)]
#[tactic(auto, unfolding(bcs_decode_spec::specs::Reading::chain, bcs_decode_spec::specs::Reading::give, bcs_decode_spec::specs::Reading::signed_here))]
pub fn signed<S: ByteSource>(reader: &mut Reader<'_, S>, width: Width) -> Result<i128, DecodeFault>
    requires ready { Ready S.is_failed S.allowance reader.old }
    ensures reads { Reads S.content S.is_failed S.allowance (λ x. x) result reader.old (signed_here (width_of width)) reader.new }
    ensures memory { OutOfMemoryOnlyInKey result reader.old.at.now }
{
    match width {
        Width::W1 => Ok(i128::from(i8::from_le_bytes(array(reader)?))),
        Width::W2 => Ok(i128::from(i16::from_le_bytes(array(reader)?))),
        Width::W4 => Ok(i128::from(i32::from_le_bytes(array(reader)?))),
        Width::W8 => Ok(i128::from(i64::from_le_bytes(array(reader)?))),
        Width::W16 => Ok(i128::from_le_bytes(array(reader)?)),
    }
}

/// A unit value, which has no bytes.
#[inline(never)]
#[tactic(auto, using(crate::proofs::Chains::node_is, crate::proofs::ValueViews::tree_unit), unfolding(bcs_decode_spec::specs::Reading::chain, bcs_decode_spec::specs::Reading::give))]
pub fn put_unit<S: ByteSource>(
    reader: &mut Reader<'_, S>,
    slot: &mut Value,
) -> Result<(), DecodeFault>
    requires ready { Ready S.is_failed S.allowance reader.old }
    ensures reads { Reads S.content S.is_failed S.allowance (λ _. tree_of slot.new) result reader.old unit_leaf reader.new }
    ensures memory { OutOfMemoryOnlyInKey result reader.old.at.now }
{
    begin(reader)?;
    *slot = Value::Unit;
    Ok(())
}

/// Reads a Boolean.
#[inline(always)]
pub fn put_truth<S: ByteSource>(
    reader: &mut Reader<'_, S>,
    slot: &mut Value,
) -> Result<(), DecodeFault>
    requires ready { Ready S.is_failed S.allowance reader.old }
    ensures reads { Reads S.content S.is_failed S.allowance (λ _. tree_of slot.new) result reader.old truth_leaf reader.new }
    ensures memory { OutOfMemoryOnlyInKey result reader.old.at.now }
{
    begin(reader)?;
    let truth = flag(reader, Reason::BadBool)?;
    *slot = Value::Bool(truth);
    Ok(())
}

/// Reads an unsigned integer.
#[inline(always)]
pub fn put_unsigned<S: ByteSource>(
    reader: &mut Reader<'_, S>,
    width: Width,
    slot: &mut Value,
) -> Result<(), DecodeFault>
    requires ready { Ready S.is_failed S.allowance reader.old }
    ensures reads { Reads S.content S.is_failed S.allowance (λ _. tree_of slot.new) result reader.old (unsigned_leaf (width_of width)) reader.new }
    ensures memory { OutOfMemoryOnlyInKey result reader.old.at.now }
{
    begin(reader)?;
    let number = unsigned(reader, width)?;
    *slot = Value::Unsigned(number);
    Ok(())
}

/// Reads a signed integer.
#[inline(always)]
pub fn put_signed<S: ByteSource>(
    reader: &mut Reader<'_, S>,
    width: Width,
    slot: &mut Value,
) -> Result<(), DecodeFault>
    requires ready { Ready S.is_failed S.allowance reader.old }
    ensures reads { Reads S.content S.is_failed S.allowance (λ _. tree_of slot.new) result reader.old (signed_leaf (width_of width)) reader.new }
    ensures memory { OutOfMemoryOnlyInKey result reader.old.at.now }
{
    begin(reader)?;
    let number = signed(reader, width)?;
    *slot = Value::Signed(number);
    Ok(())
}

/// Reads a string.
#[inline(always)]
pub fn put_text<S: ByteSource>(
    reader: &mut Reader<'_, S>,
    slot: &mut Value,
) -> Result<(), DecodeFault>
    requires ready { Ready S.is_failed S.allowance reader.old }
    ensures reads { Reads S.content S.is_failed S.allowance (λ _. tree_of slot.new) result reader.old text_leaf reader.new }
{
    begin(reader)?;
    let count = length(reader)?;
    let found = text(reader, count)?;
    *slot = Value::Text(found);
    Ok(())
}

/// Reads a byte string.
#[inline(always)]
pub fn put_bytes<S: ByteSource>(
    reader: &mut Reader<'_, S>,
    slot: &mut Value,
) -> Result<(), DecodeFault>
    requires ready { Ready S.is_failed S.allowance reader.old }
    ensures reads { Reads S.content S.is_failed S.allowance (λ _. tree_of slot.new) result reader.old bytes_leaf reader.new }
{
    begin(reader)?;
    let count = length(reader)?;
    let found = bytes(reader, count)?;
    *slot = Value::Bytes(found);
    Ok(())
}

/// Fails with `Unsupported`: the format has no values.
#[inline(never)]
#[tactic(auto, using(crate::proofs::Chains::node_is), unfolding(bcs_decode_spec::specs::Reading::chain, bcs_decode_spec::specs::Reading::give, bcs_decode_spec::specs::Reading::fail_here))]
pub fn refuse<S: ByteSource>(reader: &mut Reader<'_, S>) -> Result<(), DecodeFault>
    requires ready { Ready S.is_failed S.allowance reader.old }
    ensures reads { Reads S.content S.is_failed S.allowance (λ _. no_value) result reader.old unsupported_leaf reader.new }
    ensures still { IsStill reader.old reader.new }
    ensures refused { IsErr result }
    ensures memory { OutOfMemoryOnlyInKey result reader.old.at.now }
{
    begin(reader)?;
    Err(DecodeFault::Stop(Stop {
        reason: Reason::Unsupported,
        place: reader.at.place,
    }))
}
