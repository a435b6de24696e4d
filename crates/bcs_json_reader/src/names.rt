//! Looks up containers and variants, and counts open containers.
ghost use Rattle.std.specs.Prelude.{◌≡◌, IfOk, IfErr, Some, None, ◌≢◌, OnOk, OnErr, map, option_map, string_bytes, suc};
ghost use Rattle.bcs_registry_model.specs.Container.{container_at, enumeration, choice_called};
ghost use Rattle.bcs_registry_model.specs.Ranges.{IsOrderly};
ghost use Rattle.bcs_registry_model.specs.View.{container_of, choice_of, payload_of};
ghost use Rattle.bcs_registry_model.specs.WellFormed.{IsWellFormed};
ghost use Rattle.bcs_json_spec.specs.declared.json_fault.JsonFault.TheVariants.{BadShape, UnknownVariant, TooDeep};
ghost use Rattle.bcs_value_model.specs.View.{tree_of};
ghost use Rattle.bcs_json_spec.specs.Reading.{Reports};
ghost use Rattle.bcs_registry_model.specs.Container as container;
ghost use Rattle.bcs_json_spec.specs.Reading as spec;

use bcs_json_spec::JsonFault;
use bcs_registry::{Container, Named, Registry, VariantFormat};
use bcs_value_model::Value;
use std::alloc::Global;
use std::collections::BTreeMap;

/// The container `name`. `BadShape`: the registry has none.
#[inline(never)]
pub fn container_called<'a>(registry: &'a Registry, name: &str) -> Result<&'a Container, JsonFault>
    ensures ok { IfOk result (λ c. container_at name.now registry.now ≡ Some (container_of c.now)) }
    ensures missing { IfErr result (λ _. container_at name.now registry.now ≡ None) }
    ensures fault { IfErr result (λ e. e ≡ BadShape) }
    ensures well_formed { IsWellFormed registry.now }
    ensures orderly { IsOrderly registry.now }
{
    registry.container(name).ok_or(JsonFault::BadShape)
}

/// The variant `word` of the enum `name`, and its number. `UnknownVariant`: there is none.
#[inline(never)]
pub fn variant_called<'a>(
    registry: &Registry,
    name: &str,
    variants: &'a BTreeMap<u32, Named<VariantFormat>>,
    word: &str,
) -> Result<(u32, &'a Named<VariantFormat>), JsonFault>
    requires stands { container_at name.now registry.now ≡ Some (enumeration (map choice_of variants.now.entries)) }
    requires orderly { IsOrderly registry.now }
    ensures ok { IfOk result (λ v. choice_called word.now (map choice_of variants.now.entries) ≡ Some (choice_of (v.0, v.1.now))) }
    ensures missing { IfErr result (λ _. choice_called word.now (map choice_of variants.now.entries) ≡ None) }
    ensures fault { IfErr result (λ e. e ≡ UnknownVariant) }
{
    find_variant(registry, name, variants, word).ok_or(JsonFault::UnknownVariant)
}

/// The value of a variant that is given by its name alone, which must be a unit variant. `UnknownVariant`: the enum has
/// no such variant. `BadShape`: the variant has a payload.
#[inline(never)]
pub fn read_word(
    alloc: Global,
    registry: &Registry,
    name: &str,
    variants: &BTreeMap<u32, Named<VariantFormat>>,
    word: String,
) -> Result<Value, JsonFault>
    requires stands { container_at name.now registry.now ≡ Some (enumeration (map choice_of variants.now.entries)) }
    requires orderly { IsOrderly registry.now }
    ensures { Reports tree_of result (spec.read_word (choice_called (string_bytes word) (map choice_of variants.now.entries))) }
{
    let (number, variant) = variant_called(registry, name, variants, word.as_str())?;
    without_payload(&variant.value)?;
    Ok(Value::Variant(number, Box::new(alloc, Value::Unit)?))
}

// Finds the number by the name, and then the variant by the number.
fn find_variant<'a>(
    registry: &Registry,
    name: &str,
    variants: &'a BTreeMap<u32, Named<VariantFormat>>,
    word: &str,
) -> Option<(u32, &'a Named<VariantFormat>)>
    requires stands { container_at name.now registry.now ≡ Some (enumeration (map choice_of variants.now.entries)) }
    requires orderly { IsOrderly registry.now }
    ensures { option_map (λ v. choice_of (v.0, v.1.now)) result ≡ choice_called word.now (map choice_of variants.now.entries) }
{
    let number = registry.variant_number(name, word)?;
    let variant = variants.get(&number)?;
    Some((number, variant))
}

// Checks that a variant has no payload. `BadShape`: it has one.
fn without_payload(payload: &VariantFormat) -> Result<(), JsonFault>
    ensures ok { OnOk result (payload_of payload.now ≡ container.unit) }
    ensures carries { OnErr result (payload_of payload.now ≢ container.unit) }
    ensures fault { IfErr result (λ e. e ≡ BadShape) }
{
    match payload {
        VariantFormat::Unit => Ok(()),
        VariantFormat::NewType(_) | VariantFormat::Tuple(_) | VariantFormat::Struct(_) => {
            Err(JsonFault::BadShape)
        }
    }
}

/// How many containers may still open inside a container, if `left` may open including it. `TooDeep`: `left` is 0.
pub fn open_container(left: u32) -> Result<u32, JsonFault>
    ensures ok { IfOk result (λ inside. left ≡ suc inside) }
    ensures deep { IfErr result (λ _. left ≡ 0) }
    ensures fault { IfErr result (λ e. e ≡ TooDeep) }
{
    if left == 0 {
        Err(JsonFault::TooDeep)
    } else {
        Ok(left - 1)
    }
}
