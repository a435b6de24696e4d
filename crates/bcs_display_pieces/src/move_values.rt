//! Values of Move that are 32 bytes, as Move writes them.
ghost use Rattle.std.specs.Prelude.{◌≡◌, true};
ghost use Rattle.std.specs.Int.{w8};
ghost use Rattle.bcs_registry_model.specs.Shape.{array, unsigned};
ghost use Rattle.bcs_registry_model.specs.View.{shape_of};
ghost use Rattle.bcs_display_pieces.specs.Viewing.{HasMoveValue};

use crate::big_numbers::{put_big_signed, put_big_unsigned};
use bcs_display_text::columns::put_hex;
use bcs_explain::{Meaning, Step, Trail};
use bcs_registry::{Container, Format, Registry};
use bcs_registry_model::Kind;
use bcs_view_texts::MoveKind;
use std::alloc::AllocError;

/// The number of bytes of such a value.
pub(crate) const SIZE: usize = 32;

/// The kind of the containers with this name that need no option.
pub(crate) fn standard_kind(container: &str) -> Option<MoveKind> {
    match container {
        "address" => Some(MoveKind::Address),
        "u256" => Some(MoveKind::Unsigned),
        "i256" => Some(MoveKind::Signed),
        _ => None,
    }
}

/// The container whose whole content a piece is, if that can be a value of Move.
pub(crate) fn whole_container<'r>(
    trail: &Trail<'_, 'r, '_>,
    meaning: Meaning<'_>,
    size: usize,
) -> Option<&'r str> {
    match (meaning, trail) {
        (Meaning::Octets, Trail::Below(_, Step::Container(name))) if size == SIZE => Some(*name),
        _ => None,
    }
}

/// Whether the container has 32 `U8` and nothing else.
pub(crate) fn has_move_value(registry: &Registry, name: &str) -> bool
    ensures { HasMoveValue registry.now name.now → result ≡ true }
{
    match registry.container(name) {
        Some(Container::NewTypeStruct(format)) => is_array(format),
        _ => false,
    }
}

fn is_array(format: &Format) -> bool
    ensures { shape_of format.now ≡ array (unsigned w8) 32 → result ≡ true }
{
    match format.kind() {
        Kind::TupleArray(Format::U8, size) => size == SIZE as u64,
        _ => false,
    }
}

/// Appends the value with these 32 bytes.
pub(crate) fn put_move_value(
    kind: MoveKind,
    bytes: &[u8],
    out: &mut Vec<u8>,
) -> Result<(), AllocError> {
    match kind {
        MoveKind::Address => put_address(bytes, out),
        MoveKind::Unsigned => put_big_unsigned(bytes, out),
        MoveKind::Signed => put_big_signed(bytes, out),
    }
}

/// Appends an address. Up to 0xf it has one digit.
pub(crate) fn put_address(bytes: &[u8], out: &mut Vec<u8>) -> Result<(), AllocError> {
    out.extend_from_slice(b"0x")?;
    match short_digit(bytes) {
        Some(digit) => Ok(out.push(digit)?),
        None => put_hex(bytes, out),
    }
}

fn short_digit(bytes: &[u8]) -> Option<u8> {
    let (last, rest) = bytes.split_last()?;
    if rest.iter().any(|byte| *byte != 0) {
        return None;
    }
    b"0123456789abcdef".get(usize::from(*last)).copied()
}
