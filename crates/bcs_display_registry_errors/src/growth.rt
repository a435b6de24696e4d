//! Where a newer registry lacks or changes something of an older one.

use crate::owners::{Owner, Slot};
use bcs_display_refusal::{Name, Refusal};
use bcs_display_registry::{Change, Difference, differences};
use bcs_registry::{Container, GrowthFault};
use bcs_registry_model::containers::Containers;
use std::alloc::{AllocError, Global};

/// The refusal for the first container or variant that the newer registry lacks or changes. `None`: it only adds some.
pub fn growth_refusal(
    alloc: Global,
    older: &Containers,
    newer: &Containers,
) -> Result<Option<Refusal>, AllocError> {
    for difference in &differences(alloc, older, newer)? {
        if let Some(fault) = difference.change.fault() {
            return Ok(Some(refusal_of(alloc, difference, fault)?));
        }
    }
    Ok(None)
}

fn refusal_of(
    alloc: Global,
    difference: &Difference<'_>,
    fault: GrowthFault,
) -> Result<Refusal, AllocError> {
    let owner = Owner {
        container: difference.container,
        variant: older_variant(&difference.change),
    };
    let message = match difference.change {
        Change::VariantChanged { older, newer, .. } if older.name != newer.name => {
            let name = Name::of(newer.name.as_str());
            format!(in alloc; "the newer enum has {name} there")?
        }
        change => String::from_str(alloc, message_of(&change))?,
    };
    let location = owner.location(alloc, Slot::Whole)?;
    Ok(Refusal::of(fault.name(), location, message.into_bytes()))
}

// The variant of the older enum that differs.
fn older_variant<'a>(change: &Change<'a>) -> Option<(u32, &'a str)> {
    match change {
        Change::VariantMissing { number, older } | Change::VariantChanged { number, older, .. } =>
            Some((*number, older.name.as_str())),
        _ => None,
    }
}

fn message_of(change: &Change<'_>) -> &'static str {
    match change {
        Change::Missing { .. } => "the newer registry has no container of that name",
        Change::Changed { .. } => "the newer registry has another container of that name",
        Change::VariantMissing { .. } => "the newer enum has no variant of that number",
        Change::VariantChanged { .. } => "the newer enum has another payload there",
        Change::ContainerAdded { .. } | Change::VariantAdded { .. } => "",
    }
}
