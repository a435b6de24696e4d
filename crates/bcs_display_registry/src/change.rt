//! The differences between two registries, and how they are printed.

use bcs_display_text::columns::put_decimal;
use bcs_display_text::escaping::put_escaped;
use bcs_registry_model::{Container, GrowthFault, Named, VariantFormat};
use std::alloc::{AllocError, Global};

/// A difference between two registries, in a container that at least one of them has.
#[derive(Clone, Copy)]
pub struct Difference<'a> {
    /// The name of the container.
    pub container: &'a str,
    /// How the newer registry differs there.
    pub change: Change<'a>,
}

/// How a container of a newer registry differs from the one of the same name in an older registry.
#[derive(Clone, Copy)]
pub enum Change<'a> {
    /// Only the newer registry has the container.
    ContainerAdded {
        newer: &'a Container,
    },
    /// Only the older registry has the container.
    Missing {
        older: &'a Container,
    },
    /// The containers differ, and at least one of them isn't an enum.
    Changed {
        older: &'a Container,
        newer: &'a Container,
    },
    /// Only the newer enum has a variant with this number.
    VariantAdded {
        number: u32,
        newer: &'a Named<VariantFormat>,
    },
    /// Only the older enum has a variant with this number.
    VariantMissing {
        number: u32,
        older: &'a Named<VariantFormat>,
    },
    /// Both enums have a variant with this number, but its name or payload differs.
    VariantChanged {
        number: u32,
        older: &'a Named<VariantFormat>,
        newer: &'a Named<VariantFormat>,
    },
}

impl<'a> Change<'a> {
    /// The growth fault that this change causes, or `None` for an addition, which growth allows.
    pub fn fault(&self) -> Option<GrowthFault> {
        match self {
            Change::ContainerAdded { .. } | Change::VariantAdded { .. } => None,
            Change::Missing { .. } => Some(GrowthFault::Missing),
            Change::Changed { .. } => Some(GrowthFault::Changed),
            Change::VariantMissing { .. } => Some(GrowthFault::VariantMissing),
            Change::VariantChanged { .. } => Some(GrowthFault::VariantChanged),
        }
    }
}

/// Returns one line for each difference, in the given order. Fails only if memory runs out.
pub fn difference_lines(
    alloc: Global,
    differences: &[Difference<'_>],
) -> Result<Vec<u8>, AllocError> {
    let mut lines = Vec::new(alloc);
    for difference in differences {
        put_difference(difference, &mut lines)?;
        lines.push(b'\n')?;
    }
    Ok(lines)
}

/// Appends the container's name, the variant if there is one, and the kind of change, without a line end.
pub fn put_difference(difference: &Difference<'_>, out: &mut Vec<u8>) -> Result<(), AllocError> {
    put_escaped(difference.container, out)?;
    match &difference.change {
        Change::ContainerAdded { .. } => out.extend_from_slice(b": container added"),
        Change::Missing { .. } => out.extend_from_slice(b": Missing"),
        Change::Changed { .. } => out.extend_from_slice(b": Changed"),
        Change::VariantAdded { number, newer } => {
            put_variant(*number, newer, b": variant added", out)
        }
        Change::VariantMissing { number, older } => {
            put_variant(*number, older, b": VariantMissing", out)
        }
        Change::VariantChanged { number, older, .. } => {
            put_variant(*number, older, b": VariantChanged", out)
        }
    }
}

fn put_variant(
    number: u32,
    variant: &Named<VariantFormat>,
    change: &[u8],
    out: &mut Vec<u8>,
) -> Result<(), AllocError> {
    out.extend_from_slice(b", variant ")?;
    put_decimal(u128::from(number), out)?;
    out.push(b' ')?;
    put_escaped(variant.name.as_str(), out)?;
    out.extend_from_slice(change)
}
