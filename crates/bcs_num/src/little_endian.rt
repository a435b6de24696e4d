//! Integers of a fixed width, as the BCS specification encodes them: little-endian, in two's complement.
ghost use Rattle.std.specs.Prelude.{◌≡◌, ℕ, ℤ, ◌<◌, ◌≤◌, ◌++◌, ◌↔◌, Ok, None, length, take, drop, IfOk, IfSome, IsErrOf};
ghost use Rattle.std.specs.Int.{byte_len, cast_signed, from_le_bytes};
ghost use Rattle.bcs_num.specs.Le.{width_of, IsUnsigned, IsSigned, le, le_signed};

use crate::fault::NumFault;
use crate::width::{GREATEST_LEN, Width};

/// Writes an unsigned integer to the start of `out` and returns its length in bytes, which is that of `width`.
pub fn put_le(width: Width, n: u128, out: &mut [u8; GREATEST_LEN]) -> usize
    requires { IsUnsigned (width_of width) n }
    ensures len { result ≡ byte_len (width_of width) }
    ensures room { result ≤ GREATEST_LEN }
    ensures bytes { take result out.new ≡ le (width_of width) n }
    ensures rest { drop result out.new ≡ drop result out.old }
{
    match width {
        Width::W1 => put_front((n as u8).to_le_bytes(), out),
        Width::W2 => put_front((n as u16).to_le_bytes(), out),
        Width::W4 => put_front((n as u32).to_le_bytes(), out),
        Width::W8 => put_front((n as u64).to_le_bytes(), out),
        Width::W16 => put_front(n.to_le_bytes(), out),
    }
}

/// Writes a signed integer to the start of `out` and returns its length in bytes, which is that of `width`.
pub fn put_le_signed(width: Width, n: i128, out: &mut [u8; GREATEST_LEN]) -> usize
    requires { IsSigned (width_of width) n }
    ensures len { result ≡ byte_len (width_of width) }
    ensures room { result ≤ GREATEST_LEN }
    ensures bytes { take result out.new ≡ le_signed (width_of width) n }
    ensures rest { drop result out.new ≡ drop result out.old }
{
    // The lowest bits of the 128-bit two's complement are the two's complement of the narrower width.
    put_le(width, n.cast_unsigned() & width.greatest_unsigned(), out)
}

fn put_front<const N: usize>(bytes: [u8; N], out: &mut [u8; GREATEST_LEN]) -> usize
    requires { N ≤ GREATEST_LEN }
    ensures len { result ≡ N }
    ensures after { out.new ≡ bytes.entry ++ drop N out.old }
{
    out[..N].copy_from_slice(&bytes);
    N
}

/// Reads an unsigned integer of `width` from the start of `bytes`. Fails with `EndOfInput` if there are too few bytes.
pub fn take_le(width: Width, bytes: &[u8]) -> Result<u128, NumFault>
    ensures found { IfOk result (λ n. IsUnsigned (width_of width) n
        × (take (byte_len (width_of width)) bytes.now ≡ le (width_of width) n)) }
    ensures only { (n : ℕ) → IsUnsigned (width_of width) n
        → take (byte_len (width_of width)) bytes.now ≡ le (width_of width) n → result ≡ Ok n }
    ensures ended { IsErrOf result NumFault.EndOfInput
        ↔ (length bytes.now < byte_len (width_of width)) }
{
    leading_unsigned(width, bytes).ok_or(NumFault::EndOfInput)
}

/// Reads a signed integer of `width` from the start of `bytes`. Fails with `EndOfInput` if there are too few bytes.
pub fn take_le_signed(width: Width, bytes: &[u8]) -> Result<i128, NumFault>
    ensures found { IfOk result (λ z. IsSigned (width_of width) z
        × (take (byte_len (width_of width)) bytes.now ≡ le_signed (width_of width) z)) }
    ensures only { (z : ℤ) → IsSigned (width_of width) z
        → take (byte_len (width_of width)) bytes.now ≡ le_signed (width_of width) z → result ≡ Ok z }
    ensures ended { IsErrOf result NumFault.EndOfInput
        ↔ (length bytes.now < byte_len (width_of width)) }
{
    leading_signed(width, bytes).ok_or(NumFault::EndOfInput)
}

/// The unsigned integer of `width` at the start of `bytes`, or `None` if there are too few bytes.
#[inline(always)]
pub fn leading_unsigned(width: Width, bytes: &[u8]) -> Option<u128>
    ensures found { IfSome result (λ n. (byte_len (width_of width) ≤ length bytes.now) × (n ≡ from_le_bytes (width_of width) (take (byte_len (width_of width)) bytes.now))) }
    ensures none { result ≡ None → length bytes.now < byte_len (width_of width) }
{
    Some(match width {
        Width::W1 => u128::from(u8::from_le_bytes(*bytes.first_chunk()?)),
        Width::W2 => u128::from(u16::from_le_bytes(*bytes.first_chunk()?)),
        Width::W4 => u128::from(u32::from_le_bytes(*bytes.first_chunk()?)),
        Width::W8 => u128::from(u64::from_le_bytes(*bytes.first_chunk()?)),
        Width::W16 => u128::from_le_bytes(*bytes.first_chunk()?),
    })
}

/// The signed integer of `width` at the start of `bytes`, or `None` if there are too few bytes.
#[inline(always)]
pub fn leading_signed(width: Width, bytes: &[u8]) -> Option<i128>
    ensures found { IfSome result (λ z. (byte_len (width_of width) ≤ length bytes.now) × (z ≡ cast_signed (width_of width) (from_le_bytes (width_of width) (take (byte_len (width_of width)) bytes.now)))) }
    ensures none { result ≡ None → length bytes.now < byte_len (width_of width) }
{
    Some(match width {
        Width::W1 => i128::from(i8::from_le_bytes(*bytes.first_chunk()?)),
        Width::W2 => i128::from(i16::from_le_bytes(*bytes.first_chunk()?)),
        Width::W4 => i128::from(i32::from_le_bytes(*bytes.first_chunk()?)),
        Width::W8 => i128::from(i64::from_le_bytes(*bytes.first_chunk()?)),
        Width::W16 => i128::from_le_bytes(*bytes.first_chunk()?),
    })
}
