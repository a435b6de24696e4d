//! Looks up containers and variants, and counts open containers.
ghost use Rattle.std.specs.Prelude.{◌≡◌, IfOk, Some, OnOk, map, option_map, suc};
ghost use Rattle.std.specs.Option.{option_map_or};
ghost use Rattle.bcs_registry_model.specs.Container.{container_at, enumeration, choice_called};
ghost use Rattle.bcs_registry_model.specs.Container as container;
ghost use Rattle.bcs_registry_model.specs.Ranges.{IsOrderly};
ghost use Rattle.bcs_registry_model.specs.View.{container_of, choice_of, payload_of};
ghost use Rattle.bcs_registry_model.specs.WellFormed.{IsWellFormed};
ghost use Rattle.bcs_json_passing.specs.Passing.{IfUnrefused};

use bcs_json_passing::given_up::GivenUp;
use bcs_registry::{Container, Named, Registry, VariantFormat};
use std::collections::BTreeMap;

/// The container `name`.
#[inline(never)]
pub fn container_called<'a>(registry: &'a Registry, name: &str) -> Result<&'a Container, GivenUp>
    ensures ok { IfOk result (λ c. container_at name.now registry.now ≡ Some (container_of c.now)) }
    ensures fault { IfUnrefused result }
    ensures well_formed { IsWellFormed registry.now }
    ensures orderly { IsOrderly registry.now }
{
    registry.container(name).ok_or(GivenUp::Unusual)
}

/// The variant `word` of the enum `name`, and its number.
#[inline(never)]
pub fn variant_called<'a>(
    registry: &Registry,
    name: &str,
    variants: &'a BTreeMap<u32, Named<VariantFormat>>,
    word: &str,
) -> Result<(u32, &'a Named<VariantFormat>), GivenUp>
    requires stands { container_at name.now registry.now ≡ Some (enumeration (map choice_of variants.now.entries)) }
    requires orderly { IsOrderly registry.now }
    ensures ok { IfOk result (λ v. choice_called word.now (map choice_of variants.now.entries) ≡ Some (choice_of (v.0, v.1.now))) }
    ensures fault { IfUnrefused result }
{
    find_variant(registry, name, variants, word).ok_or(GivenUp::Unusual)
}

// Finds the number by the name, and then the variant by the number.
fn find_variant<'a>(
    registry: &Registry,
    name: &str,
    variants: &'a BTreeMap<u32, Named<VariantFormat>>,
    word: &str,
) -> Option<(u32, &'a Named<VariantFormat>)>
    requires stands { container_at name.now registry.now ≡ Some (enumeration (map choice_of variants.now.entries)) }
    requires orderly { IsOrderly registry.now }
    ensures { option_map (λ v. choice_of (v.0, v.1.now)) result ≡ choice_called word.now (map choice_of variants.now.entries) }
{
    let number = registry.variant_number(name, word)?;
    let variant = variants.get(&number)?;
    Some((number, variant))
}

/// Checks that a variant has no payload.
pub fn without_payload(payload: &VariantFormat) -> Result<(), GivenUp>
    ensures ok { OnOk result (payload_of payload.now ≡ container.unit) }
    ensures fault { IfUnrefused result }
{
    match payload {
        VariantFormat::Unit => Ok(()),
        VariantFormat::NewType(_) | VariantFormat::Tuple(_) | VariantFormat::Struct(_) => {
            Err(GivenUp::Unusual)
        }
    }
}

/// How many containers may still open inside a container, if `left` may open including it. `None`: it may not open.
#[inline(always)]
pub fn open_container(left: u32) -> Option<u32>
    ensures { left ≡ option_map_or suc result 0 }
{
    if left == 0 { None } else { Some(left - 1) }
}
