//! Names in JSON Pointers.
ghost use Rattle.std.specs.Prelude.{◌≡◌, ◌++◌, OnOk};
ghost use Rattle.bcs_display_mistakes.specs.Marked.{marked, marked_sign};

use std::alloc::AllocError;

/// Appends a name as a step of a JSON Pointer has it, without the `/` before it.
pub fn put_marked(name: &[u8], out: &mut Vec<u8>) -> Result<(), AllocError>
    ensures { OnOk result (out.new.items ≡ out.old.items ++ marked name.now) }
{
    for sign in name {
        put_sign(*sign, out)?;
    }
    Ok(())
}

/// Appends a byte of a name.
fn put_sign(sign: u8, out: &mut Vec<u8>) -> Result<(), AllocError>
    ensures { OnOk result (out.new.items ≡ out.old.items ++ marked_sign sign) }
{
    match sign {
        b'~' => out.extend_from_slice(b"~0"),
        b'/' => out.extend_from_slice(b"~1"),
        _ => out.extend_from_slice(&[sign]),
    }
}
