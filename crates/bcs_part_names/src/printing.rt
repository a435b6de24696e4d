//! Prints steps of names.
ghost use Rattle.std.specs.Prelude.{◌≡◌, ◌++◌, ◌∷◌, [], OnOk};
ghost use Rattle.std.specs.Fmt.{decimal};
ghost use Rattle.bcs_part_names.specs.Names.{step_text};
ghost use Rattle.bcs_part_names.specs.NameSteps.{named};

use crate::name_step::NameStep;
use bcs_display_text::columns::{put_decimal, put_hex};
use std::alloc::AllocError;

/// Appends the text of a step.
pub fn put_step(step: &NameStep<'_>, out: &mut Vec<u8>) -> Result<(), AllocError>
    ensures { OnOk result (out.new.items ≡ out.old.items ++ step_text (named step.now)) }
{
    match step {
        NameStep::Field(label) => {
            out.extend_from_slice(b".")?;
            out.extend_from_slice(label)
        }
        NameStep::Variant(label) => {
            out.extend_from_slice(b"::")?;
            out.extend_from_slice(label)
        }
        NameStep::Inside => out.extend_from_slice(b"?"),
        NameStep::Item(number) => put_numbered(b"[", *number, out),
        NameStep::Key(bytes) => {
            out.extend_from_slice(b"[key:")?;
            put_hex(bytes.as_slice(), out)?;
            out.extend_from_slice(b"]")
        }
        NameStep::EntryValue(number) => put_numbered(b"[value ", *number, out),
        NameStep::EntryKey(number) => put_numbered(b"[key ", *number, out),
    }
}

fn put_numbered(word: &[u8], number: u64, out: &mut Vec<u8>) -> Result<(), AllocError>
    ensures { OnOk result (out.new.items ≡ out.old.items ++ (word.now ++ decimal number ++ 93 ∷ [])) }
{
    out.extend_from_slice(word)?;
    put_decimal(u128::from(number), out)?;
    out.extend_from_slice(b"]")
}
