//! Growth: whether a newer registry still contains everything from an older one.
ghost use Rattle.std.specs.Prelude.{◌≡◌, map};
ghost use Rattle.std.specs.Result.{result_err};
ghost use Rattle.bcs_registry_model.specs.Growing.{first_fault, choice_fault, container_fault, entry_fault, growth_fault};
ghost use Rattle.bcs_registry_model.specs.Order.{NamesRise};
ghost use Rattle.bcs_registry_model.specs.View.{choice_of, container_of, entries_of};

use crate::container::Container;
use crate::containers::Containers;
use crate::equality::{is_same_struct, is_same_variant};
use crate::growth_fault::GrowthFault;
use crate::named::Named;
use crate::variant_format::VariantFormat;
use std::collections::BTreeMap;

/// Whether the newer registry has every container of the older one unchanged, except that enums may have more variants.
#[tactic(auto, using(crate::proofs::Rising::names_rise))]
pub fn containers_grow(older: &Containers, newer: &Containers) -> Result<(), GrowthFault>
    ensures rising { NamesRise (entries_of older.now.entries.items) }
    ensures fault { result_err result
        ≡ growth_fault (entries_of older.now.entries.items) (entries_of newer.now.entries.items) }
{
    let entries = older.entries();
    for entry in entries {
        container_stands(entry.0.as_str(), &entry.1, newer)?;
    }
    Ok(())
}

// Whether the newer registry has the container, possibly with more variants.
fn container_stands(name: &str, older: &Container, newer: &Containers) -> Result<(), GrowthFault>
    ensures { result_err result
        ≡ entry_fault (entries_of newer.now.entries.items) (name.now, container_of older.now) }
{
    match newer.get(name) {
        Some(newer) => container_grows(older, newer),
        None => Err(GrowthFault::Missing),
    }
}

fn container_grows(older: &Container, newer: &Container) -> Result<(), GrowthFault>
    ensures { result_err result
        ≡ container_fault (container_of older.now) (container_of newer.now) }
{
    match (older, newer) {
        (Container::Enum(older), Container::Enum(newer)) => variants_grow(older, newer),
        _ if is_same_struct(older, newer) => Ok(()),
        _ => Err(GrowthFault::Changed),
    }
}

fn variants_grow(
    older: &BTreeMap<u32, Named<VariantFormat>>,
    newer: &BTreeMap<u32, Named<VariantFormat>>,
) -> Result<(), GrowthFault>
    ensures { result_err result ≡ first_fault (choice_fault (map choice_of newer.now.entries))
        (map choice_of older.now.entries) }
{
    for (number, variant) in older {
        variant_stands(*number, variant, newer)?;
    }
    Ok(())
}

// Whether the newer enum has the variant.
fn variant_stands(
    number: u32,
    older: &Named<VariantFormat>,
    newer: &BTreeMap<u32, Named<VariantFormat>>,
) -> Result<(), GrowthFault>
    ensures { result_err result
        ≡ choice_fault (map choice_of newer.now.entries) (choice_of (number, older.now)) }
{
    match newer.get(&number) {
        Some(newer) if is_same_variant(older, newer) => Ok(()),
        Some(_) => Err(GrowthFault::VariantChanged),
        None => Err(GrowthFault::VariantMissing),
    }
}
