//! Text escaped for a JSON string (RFC 8259, section 7), in ASCII.
ghost use Rattle.std.specs.Prelude.{◌≡◌, ◌++◌, OnOk};
ghost use Rattle.bcs_display_text.specs.Escaped.{escaped, escaped_unit, numbered};

use crate::columns::put_hex;
use std::alloc::AllocError;

/// Appends `text` without quotes. Escapes `"`, `\` and everything that isn't printable ASCII.
pub fn put_escaped(text: &str, out: &mut Vec<u8>) -> Result<(), AllocError>
    ensures { OnOk result (out.new.items ≡ out.old.items ++ escaped text.now) }
{
    for unit in text.encode_utf16() {
        put_unit(unit, out)?;
    }
    Ok(())
}

/// Appends a UTF-16 unit: as it is, after a `\`, or as `\u` and four digits.
#[tactic(auto, using(crate::proofs::EscapedUnits::escaped_marked, crate::proofs::EscapedUnits::escaped_plain, crate::proofs::EscapedUnits::escaped_low, crate::proofs::EscapedUnits::escaped_high))]
fn put_unit(unit: u16, out: &mut Vec<u8>) -> Result<(), AllocError>
    ensures { OnOk result (out.new.items ≡ out.old.items ++ escaped_unit unit) }
{
    match u8::try_from(unit) {
        Ok(byte @ (b'"' | b'\\')) => out.extend_from_slice(&[b'\\', byte]),
        Ok(byte @ b' '..=b'~') => out.extend_from_slice(&[byte]),
        _ => put_numbered(unit, out),
    }
}

/// Appends a UTF-16 unit as `\u` and four hexadecimal digits.
#[tactic(auto, using(crate::proofs::EscapedUnits::numbered_digits))]
fn put_numbered(unit: u16, out: &mut Vec<u8>) -> Result<(), AllocError>
    ensures { OnOk result (out.new.items ≡ out.old.items ++ numbered unit) }
{
    out.extend_from_slice(b"\\u")?;
    put_hex(&unit.to_be_bytes(), out)
}
