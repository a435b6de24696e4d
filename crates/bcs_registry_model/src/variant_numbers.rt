//! The variant numbers of a registry, by name.
ghost use Rattle.std.specs.Prelude.{◌≡◌, ℕ, List, IfOk, map};
ghost use Rattle.std.specs.BTreeMap.{get_by_text};
ghost use Rattle.bcs_registry_model.specs.Container.{enumeration, number_called};
ghost use Rattle.bcs_registry_model.specs.Names.{number_found, FindsNumbers};
ghost use Rattle.bcs_registry_model.specs.View.{choice_of, entries_of};

use crate::container::Container;
use crate::containers::Containers;
use crate::named::Named;
use crate::variant_format::VariantFormat;
use std::alloc::{AllocError, Global};
use std::collections::BTreeMap;

/// The numbers of variants, by the name of the enum and the name of the variant. Only enums have entries.
#[derive(Drop)]
pub struct VariantNumbers {
    by_enum: BTreeMap<String, BTreeMap<String, u32>>,
}

impl VariantNumbers {
    /// The number stored for these two names. Takes time logarithmic in the number of names.
    pub fn number(&self, container: &str, variant: &str) -> Option<u32>
        ensures { result ≡ number_found container.now variant.now self.now }
    {
        self.by_enum.get(container)?.get(variant).copied()
    }
}

/// Collects the variant numbers of each enum. Fails only if memory runs out.
pub fn numbers_by_name(alloc: Global, containers: &Containers) -> Result<VariantNumbers, AllocError>
    ensures { IfOk result (λ n. FindsNumbers n (entries_of containers.now.entries.items)) }
{
    let mut by_enum = BTreeMap::new(alloc);
    let entries = containers.entries();
    for (name, container) in entries {
        if let Container::Enum(variants) = container {
            let numbers = numbers_of(alloc, variants)?;
            drop(by_enum.insert(name.clone()?, numbers)?);
        }
    }
    Ok(VariantNumbers { by_enum })
}

/// The variant numbers of an enum, by name. If variants share a name, the first one counts.
fn numbers_of(
    alloc: Global,
    variants: &BTreeMap<u32, Named<VariantFormat>>,
) -> Result<BTreeMap<String, u32>, AllocError>
    ensures { IfOk result (λ m. (word : List ℕ)
        → get_by_text m word
        ≡ number_called word (enumeration (map choice_of variants.now.entries))) }
{
    let mut numbers = BTreeMap::new(alloc);
    for (number, variant) in variants {
        if !numbers.contains_key(variant.name.as_str()) {
            drop(numbers.insert(variant.name.clone()?, *number)?);
        }
    }
    Ok(numbers)
}
