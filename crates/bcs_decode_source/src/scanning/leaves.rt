//! Skips what contains no other values. Not inlined, to keep the callers' stack frames small.
ghost use Rattle.std.specs.Prelude.{◌≤◌};
ghost use Rattle.bcs_decode_spec.specs.Steps.{truth_here, whole_here, text_past, bytes_past};
ghost use Rattle.bcs_decode_source.specs.Reads.{Ready, Reads};
ghost use Rattle.bcs_decode_source.specs.Sees.{OutOfMemoryOnlyInKey};

use crate::bytes::{begin, read_exact};
use crate::leaves::flag;
use crate::number::length;
use crate::reader::Reader;
use crate::scanning::blocks::pass_bytes;
use crate::scanning::texts::pass_text;
use bcs_decode_spec::{DecodeFault, Reason};
use bcs_io::ByteSource;
use bcs_num::GREATEST_LEN;

#[inline(never)]
pub fn truth<S: ByteSource>(reader: &mut Reader<'_, S>) -> Result<(), DecodeFault>
    requires ready { Ready S.is_failed S.allowance reader.old }
    ensures reads { Reads S.content S.is_failed S.allowance (λ x. x) result reader.old truth_here reader.new }
    ensures memory { OutOfMemoryOnlyInKey result reader.old.at.now }
{
    begin(reader)?;
    flag(reader, Reason::BadBool)?;
    Ok(())
}

/// Skips an integer of `width` bytes.
#[inline(never)]
pub fn whole<S: ByteSource>(reader: &mut Reader<'_, S>, width: usize) -> Result<(), DecodeFault>
    requires ready { Ready S.is_failed S.allowance reader.old }
    requires small { width ≤ GREATEST_LEN }
    ensures reads { Reads S.content S.is_failed S.allowance (λ x. x) result reader.old (whole_here width) reader.new }
    ensures memory { OutOfMemoryOnlyInKey result reader.old.at.now }
{
    begin(reader)?;
    let mut block = [0u8; GREATEST_LEN];
    read_exact(reader, &mut block[..width])?;
    Ok(())
}

#[inline(never)]
pub fn text<S: ByteSource>(reader: &mut Reader<'_, S>) -> Result<(), DecodeFault>
    requires ready { Ready S.is_failed S.allowance reader.old }
    ensures reads { Reads S.content S.is_failed S.allowance (λ x. x) result reader.old text_past reader.new }
    ensures memory { OutOfMemoryOnlyInKey result reader.old.at.now }
{
    begin(reader)?;
    let count = length(reader)?;
    pass_text(reader, count)
}

#[inline(never)]
pub fn bytes<S: ByteSource>(reader: &mut Reader<'_, S>) -> Result<(), DecodeFault>
    requires ready { Ready S.is_failed S.allowance reader.old }
    ensures reads { Reads S.content S.is_failed S.allowance (λ x. x) result reader.old bytes_past reader.new }
    ensures memory { OutOfMemoryOnlyInKey result reader.old.at.now }
{
    begin(reader)?;
    let count = length(reader)?;
    pass_bytes(reader, count)
}
