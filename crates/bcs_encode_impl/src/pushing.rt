//! Encodes values without parts.
ghost use Rattle.std.specs.Prelude.{◌≡◌, ◌+◌, ◌<◌, ◌≤◌, ◌++◌, ◌∷◌, [], Ok, vec_capacity, vec_len, IsErrOf, OnOk};
ghost use Rattle.std.specs.Int.{byte_len};
ghost use Rattle.bcs_num.specs.Le.{width_of};
ghost use Rattle.bcs_num.specs.Uleb.{uleb};
ghost use Rattle.bcs_encode_impl.specs.Writing.{ReportsVerdict, length_written, bytes_written, signed_written, unsigned_written};

use bcs_encode_spec::EncodeFault;
use bcs_num::{GREATEST_LEN, LENGTH_LIMIT, Width, put_le, put_le_signed, put_uleb};

pub fn push_byte(byte: u8, out: &mut Vec<u8>) -> Result<(), EncodeFault>
    ensures { ReportsVerdict result (Ok (out.old.items ++ byte ∷ [])) out.new.items }
{
    out.push(byte)?;
    Ok(())
}

/// Appends a ULEB128 number.
pub fn push_number(number: u32, out: &mut Vec<u8>) -> Result<(), EncodeFault>
    ensures { ReportsVerdict result (Ok (out.old.items ++ uleb number)) out.new.items }
{
    let mut bytes = [0; 5];
    let len = put_uleb(number, &mut bytes);
    out.extend_from_slice(&bytes[..len])?;
    Ok(())
}

/// Appends a length as ULEB128, or returns `TooLong`.
pub fn push_length(length: usize, out: &mut Vec<u8>) -> Result<(), EncodeFault>
    ensures { ReportsVerdict result (length_written length out.old.items) out.new.items }
{
    if length > LENGTH_LIMIT {
        return Err(EncodeFault::TooLong);
    }
    push_number(length as u32, out)
}

/// Appends a byte string: its length, then its bytes.
pub fn push_bytes(bytes: &[u8], out: &mut Vec<u8>) -> Result<(), EncodeFault>
    ensures { ReportsVerdict result (bytes_written bytes.now out.old.items) out.new.items }
{
    push_length(bytes.len(), out)?;
    out.extend_from_slice(bytes)?;
    Ok(())
}

/// Appends an unsigned integer in little-endian order, or rejects it if it is out of range. Allocates nothing if the
/// vector has room for its bytes.
#[tactic(auto, using(crate::proofs::NumberViews::one_byte))]
pub fn push_unsigned(width: Width, number: u128, out: &mut Vec<u8>) -> Result<(), EncodeFault>
    ensures reports { ReportsVerdict result (unsigned_written (width_of width) number out.old.items) out.new.items }
    ensures len { OnOk result (vec_len out.new ≡ vec_len out.old + byte_len (width_of width)) }
    ensures capacity { vec_capacity out.old ≤ vec_capacity out.new }
    ensures full { IsErrOf result EncodeFault.OutOfMemory
        → vec_capacity out.old < vec_len out.old + byte_len (width_of width) }
{
    if !width.holds_unsigned(number) {
        return Err(EncodeFault::NotOfFormat);
    }
    if let Width::W1 = width {
        out.push(number as u8)?;
        return Ok(());
    }
    let mut bytes = [0; GREATEST_LEN];
    let len = put_le(width, number, &mut bytes);
    out.extend_from_slice(&bytes[..len])?;
    Ok(())
}

/// Appends a signed integer in little-endian order, or rejects it if it is out of range. Allocates nothing if the
/// vector has room for its bytes.
pub fn push_signed(width: Width, number: i128, out: &mut Vec<u8>) -> Result<(), EncodeFault>
    ensures reports { ReportsVerdict result (signed_written (width_of width) number out.old.items) out.new.items }
    ensures len { OnOk result (vec_len out.new ≡ vec_len out.old + byte_len (width_of width)) }
    ensures capacity { vec_capacity out.old ≤ vec_capacity out.new }
    ensures full { IsErrOf result EncodeFault.OutOfMemory
        → vec_capacity out.old < vec_len out.old + byte_len (width_of width) }
{
    if !width.holds_signed(number) {
        return Err(EncodeFault::NotOfFormat);
    }
    let mut bytes = [0; GREATEST_LEN];
    let len = put_le_signed(width, number, &mut bytes);
    out.extend_from_slice(&bytes[..len])?;
    Ok(())
}
