//! Hints about the name of a variant that an enum doesn't have, in JSON or after `--variant`.

use crate::hints::Hint;
use crate::variant_list::VariantList;
use bcs_display_mistakes::{NearestName, Suggestion};
use bcs_display_refusal::{Location, Refusal};
use bcs_registry::{Container, Format, Named, Registry, VariantFormat};
use std::alloc::{AllocError, Global};
use std::collections::BTreeMap;

/// The variant with the nearest name, or if none is near, the variants that exist.
pub(crate) fn variant_hint<'a>(
    alloc: Global,
    variants: &'a BTreeMap<u32, Named<VariantFormat>>,
    word: &'a str,
) -> Result<Hint<'a>, AllocError> {
    match nearest_variant(alloc, variants, word)? {
        Some(name) => Ok(Hint::Nearest(Suggestion::of(Some(name)))),
        None => Ok(Hint::Variants(VariantList(variants))),
    }
}

/// The refusal of a name after `--variant` that isn't the name of a variant, where FORMAT is this format. It always lists
/// the variants, since the command needs nothing but such a name.
pub fn variant_refusal(
    alloc: Global,
    registry: &Registry,
    format: &Format,
    word: &str,
) -> Result<Refusal, AllocError> {
    let message = match variants_of(registry, format) {
        Some(variants) => {
            let nearest = Suggestion::of(nearest_variant(alloc, variants, word)?);
            let list = VariantList(variants);
            format!(in alloc; "no variant has this name{nearest}{list}")?
        }
        None => String::from_str(alloc, "FORMAT isn't the name of an enum")?,
    };
    let location = Location::Name(String::from_str(alloc, word)?);
    let refusal = Refusal::of("UnknownVariant", location, message.into_bytes());
    Ok(refusal.in_argument("--variant"))
}

fn nearest_variant<'a>(
    alloc: Global,
    variants: &'a BTreeMap<u32, Named<VariantFormat>>,
    word: &'a str,
) -> Result<Option<&'a str>, AllocError> {
    let mut search = NearestName::to(word);
    for variant in variants.values() {
        if search.is_over() {
            break;
        }
        search.consider(alloc, variant.name.as_str())?;
    }
    Ok(search.found())
}

// The variants of the enum that the format names, if it names one.
fn variants_of<'a>(
    registry: &'a Registry,
    format: &Format,
) -> Option<&'a BTreeMap<u32, Named<VariantFormat>>> {
    let Format::TypeName(name) = format else {
        return None;
    };
    let name = name.as_str();
    match registry.container(name)? {
        Container::Enum(variants) => Some(variants),
        _ => None,
    }
}
