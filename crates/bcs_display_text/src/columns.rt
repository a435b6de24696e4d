//! Numbers and hexadecimal digits, and the spaces that align them in columns.
ghost use Rattle.std.specs.Prelude.{◌≡◌, ◌++◌, ◌∷◌, [], List, ℕ, OnOk, decimal, length};
ghost use Rattle.std.specs.Fmt.{signed_decimal};
ghost use Rattle.std.specs.Int.{cast_signed};
ghost use Rattle.hex.specs.Hex.{encode_lower};
ghost use Rattle.bcs_num.specs.Le.{width_of};
ghost use Rattle.bcs_display_text.specs.Columns.{blanks, left_in, right_in};

use bcs_num::Width;
use itoa::Buffer;
use std::alloc::AllocError;

/// Appends `count` spaces.
pub fn put_blanks(count: usize, out: &mut Vec<u8>) -> Result<(), AllocError>
    ensures { OnOk result (out.new.items ≡ out.old.items ++ blanks count) }
{
    for _ in 0..count {
        out.push(b' ')?;
    }
    Ok(())
}

/// Appends a number in decimal.
pub fn put_decimal(number: u128, out: &mut Vec<u8>) -> Result<(), AllocError>
    ensures { OnOk result (out.new.items ≡ out.old.items ++ decimal number) }
{
    let mut digits = Buffer::new();
    out.extend_from_slice(digits.format(number).as_bytes())
}

/// Appends in decimal the signed number whose two's complement in `width` is `bits`.
pub fn put_signed(width: Width, bits: u128, out: &mut Vec<u8>) -> Result<(), AllocError>
    ensures { OnOk result (out.new.items ≡ out.old.items ++ signed_decimal (cast_signed (width_of width) bits)) }
{
    let all_ones = width.greatest_unsigned();
    if bits <= all_ones / 2 {
        return put_decimal(bits, out);
    }
    out.push(b'-')?;
    put_decimal(all_ones.saturating_sub(bits) + 1, out)
}

/// Appends a byte offset in decimal, right-aligned in a column of `width` bytes.
pub fn put_place(place: u64, width: usize, out: &mut Vec<u8>) -> Result<(), AllocError>
    ensures { OnOk result (out.new.items ≡ out.old.items ++ right_in width (decimal place)) }
{
    let mut buffer = Buffer::new();
    let digits = buffer.format(place).as_bytes();
    put_blanks(width.saturating_sub(digits.len()), out)?;
    out.extend_from_slice(digits)
}

/// Appends two lower-case hexadecimal digits for each byte.
pub fn put_hex(bytes: &[u8], out: &mut Vec<u8>) -> Result<(), AllocError>
    ensures { OnOk result (out.new.items ≡ out.old.items ++ encode_lower bytes.now) }
{
    for byte in bytes {
        put_byte(*byte, out)?;
    }
    Ok(())
}

/// Appends the two hexadecimal digits of a byte.
fn put_byte(byte: u8, out: &mut Vec<u8>) -> Result<(), AllocError>
    ensures { OnOk result (out.new.items ≡ out.old.items ++ encode_lower (byte ∷ [])) }
{
    let mut digits = [0; 2];
    // This can't fail: the buffer has room for two digits.
    let _ = hex::encode_to_slice([byte], &mut digits);
    out.extend_from_slice(&digits)
}

/// Pads the text since byte `start` of the buffer to `width` bytes, and appends two spaces.
pub fn end_column(start: usize, width: usize, out: &mut Vec<u8>) -> Result<(), AllocError>
    ensures { (before text : List ℕ) → out.old.items ≡ before ++ text → length before ≡ start
        → OnOk result (out.new.items ≡ before ++ left_in width text ++ blanks 2) }
{
    put_blanks(width.saturating_sub(out.len().saturating_sub(start)), out)?;
    put_blanks(2, out)
}
