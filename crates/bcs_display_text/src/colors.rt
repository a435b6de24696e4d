//! Colored text, if the style asks for color.
ghost use Rattle.std.specs.Prelude.{◌≡◌, ◌-◌, ◌++◌, ℕ, List, OnOk, length};
ghost use Rattle.bcs_display_text.specs.Columns.{blanks};
ghost use Rattle.bcs_display_text.specs.Painted.{color_off, color_on};

use crate::columns::put_blanks;
use crate::style::Paint;
use std::alloc::AllocError;

/// Appends the escape sequence that switches to `color`, a list of SGR parameters such as `1;31` (ECMA-48).
pub fn start_color(paint: Paint, color: &str, out: &mut Vec<u8>) -> Result<(), AllocError>
    ensures { OnOk result (out.new.items ≡ out.old.items ++ color_on paint color.now) }
{
    match paint {
        Paint::Plain => Ok(()),
        Paint::Colored => {
            out.extend_from_slice(b"\x1b[")?;
            out.extend_from_slice(color.as_bytes())?;
            Ok(out.push(b'm')?)
        }
    }
}

/// Appends the escape sequence that resets the color.
pub fn end_color(paint: Paint, out: &mut Vec<u8>) -> Result<(), AllocError>
    ensures { OnOk result (out.new.items ≡ out.old.items ++ color_off paint) }
{
    match paint {
        Paint::Plain => Ok(()),
        Paint::Colored => out.extend_from_slice(b"\x1b[0m"),
    }
}

/// Resets the color, pads the text since byte `start` of the buffer to `width` bytes, and appends two spaces.
pub fn end_painted(
    paint: Paint,
    start: usize,
    width: usize,
    out: &mut Vec<u8>,
) -> Result<(), AllocError>
    ensures { (before text : List ℕ) → out.old.items ≡ before ++ text → length before ≡ start
        → OnOk result (out.new.items ≡ ((out.old.items ++ color_off paint) ++ blanks (width - length text)) ++ blanks 2) }
{
    let size = out.len().saturating_sub(start);
    end_color(paint, out)?;
    put_blanks(width.saturating_sub(size), out)?;
    put_blanks(2, out)
}
