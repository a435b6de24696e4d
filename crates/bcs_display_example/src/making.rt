//! Builds the requested example.

use crate::depth_ranks::find_least_examples;
use crate::example_options::{ExampleForm, ExampleOptions};
use crate::fault::ExampleOptionsFault;
use crate::filling::{Maker, fill_part};
use crate::needed::{all_containers, needed_containers};
use crate::node_counts::part_nodes;
use crate::part::{Part, payload_part};
use crate::place::{Place, nothing_opened, opened_within};
use bcs_registry::{Container, Format, Registry, VariantFormat};
use bcs_value::{Limits, Value};
use bcs_value_model::slot::{wrap_named, wrap_variant};
use std::alloc::Global;

/// The nodes of an enum and its variant, without the payload.
const NODES_AROUND: u32 = 2;

/// Builds the requested example.
pub(crate) fn make_wished<'r>(
    alloc: Global,
    registry: &'r Registry,
    format: &'r Format,
    example_options: &ExampleOptions<'_>,
    limits: &Limits,
) -> Result<Value, ExampleOptionsFault> {
    let Some(word) = example_options.variant else {
        let opened = nothing_opened();
        let place = Place {
            form: example_options.form,
            depth: limits.depth(),
            opened: &opened,
        };
        return make(alloc, registry, Part::Format(format), place, limits.nodes());
    };
    let found = find_variant(registry, format, word);
    let chosen = found.ok_or(ExampleOptionsFault::UnknownVariant)?;
    make_variant(alloc, registry, chosen, example_options.form, limits)
}

/// Builds the variant with an example as payload.
fn make_variant<'r>(
    alloc: Global,
    registry: &'r Registry,
    chosen: Chosen<'r>,
    form: ExampleForm,
    limits: &Limits,
) -> Result<Value, ExampleOptionsFault> {
    let depth = limits
        .depth()
        .checked_sub(1)
        .ok_or(ExampleOptionsFault::NoValue)?;
    let nodes = limits.nodes().saturating_sub(NODES_AROUND);
    let outside = nothing_opened();
    let opened = opened_within(chosen.name, &outside);
    let place = Place {
        form,
        depth,
        opened: &opened,
    };
    let mut slot = make(alloc, registry, payload_part(chosen.payload), place, nodes)?;
    wrap_variant(alloc, chosen.number, &mut slot)?;
    wrap_named(alloc, &mut slot)?;
    Ok(slot)
}

/// A variant of an enum.
#[derive(Clone, Copy)]
struct Chosen<'r> {
    name: &'r str,
    number: u32,
    payload: &'r VariantFormat,
}

/// Looks up the variant, if the format is the name of an enum that has it.
fn find_variant<'r>(registry: &'r Registry, format: &'r Format, word: &str) -> Option<Chosen<'r>> {
    let Format::TypeName(name) = format else {
        return None;
    };
    let number = registry.variant_number(name.as_str(), word)?;
    match registry.container(name.as_str())? {
        Container::Enum(variants) => {
            let variant = variants.get(&number)?;
            Some(Chosen {
                name: name.as_str(),
                number,
                payload: &variant.value,
            })
        }
        _ => None,
    }
}

/// Builds the example of `part` if it has at most `nodes` nodes. For a least example this is checked before anything is
/// built.
fn make<'r>(
    alloc: Global,
    registry: &'r Registry,
    part: Part<'r>,
    place: Place<'_, 'r>,
    nodes: u32,
) -> Result<Value, ExampleOptionsFault> {
    let containers = match place.form {
        ExampleForm::Least => needed_containers(alloc, registry, part)?,
        ExampleForm::Full => all_containers(alloc, registry)?,
    };
    let least_examples = find_least_examples(alloc, containers, place.depth)?;
    let least = part_nodes(part, &least_examples, place.depth).ok_or(ExampleOptionsFault::NoValue)?;
    if place.form == ExampleForm::Least && least > u64::from(nodes) {
        return Err(ExampleOptionsFault::TooManyNodes);
    }
    let maker = Maker {
        alloc,
        registry,
        least_examples: &least_examples,
    };
    let mut left = nodes;
    let mut slot = Value::Unit;
    fill_part(&maker, part, place, &mut left, &mut slot)?;
    Ok(slot)
}
