//! The rules that all formats of a registry must meet.
ghost use Rattle.std.specs.Prelude.{◌≡◌, map};
ghost use Rattle.std.specs.List.{list_all, flat_map};
ghost use Rattle.bcs_registry_model.specs.Rules.{keeps};
ghost use Rattle.bcs_registry_model.specs.View.{shape_of, formats_shapes, field_of, payload_of, choice_of, container_of, entries_of};
ghost use Rattle.bcs_registry_model.specs.WellFormed.{shape_list, payload_formats, container_formats, formats};

use crate::container::Container;
use crate::containers::Containers;
use crate::format::Format;
use crate::known::is_known;
use crate::levels::has_few_levels;
use crate::named::Named;
use crate::variant_format::VariantFormat;
use std::collections::BTreeMap;

/// A rule that each format of a registry must meet.
#[derive(Clone, Copy)]
pub enum Rule {
    /// It has at most 32 levels.
    FewLevels,
    /// Each `TypeName` in it is a name of the registry.
    KnownNames,
}

/// Whether every format in the containers meets the rule.
#[tactic(auto, using(crate::proofs::Inside::row_rules))]
pub fn all_keep(containers: &Containers, rule: Rule) -> bool
    ensures { result ≡ list_all (keeps rule (entries_of containers.now.entries.items))
        (formats (entries_of containers.now.entries.items)) }
{
    let entries = containers.entries();
    for entry in entries {
        if !container_keeps(&entry.1, rule, containers) {
            return false;
        }
    }
    true
}

fn container_keeps(container: &Container, rule: Rule, containers: &Containers) -> bool
    ensures { result ≡ list_all (keeps rule (entries_of containers.now.entries.items))
        (container_formats (container_of container.now)) }
{
    match container {
        Container::UnitStruct => true,
        Container::NewTypeStruct(format) => format_keeps(format, rule, containers),
        Container::TupleStruct(formats) => formats_keep(formats.as_slice(), rule, containers),
        Container::Struct(fields) => fields_keep(fields.as_slice(), rule, containers),
        Container::Enum(variants) => variants_keep(variants, rule, containers),
    }
}

#[tactic(auto, using(crate::proofs::Inside::row_rules))]
fn variants_keep(
    variants: &BTreeMap<u32, Named<VariantFormat>>,
    rule: Rule,
    containers: &Containers,
) -> bool
    ensures { result ≡ list_all (keeps rule (entries_of containers.now.entries.items))
        (flat_map (λ c. payload_formats c.1.1) (map choice_of variants.now.entries)) }
{
    for variant in variants.values() {
        if !payload_keeps(&variant.value, rule, containers) {
            return false;
        }
    }
    true
}

fn payload_keeps(payload: &VariantFormat, rule: Rule, containers: &Containers) -> bool
    ensures { result ≡ list_all (keeps rule (entries_of containers.now.entries.items))
        (payload_formats (payload_of payload.now)) }
{
    match payload {
        VariantFormat::Unit => true,
        VariantFormat::NewType(format) => format_keeps(format, rule, containers),
        VariantFormat::Tuple(formats) => formats_keep(formats.as_slice(), rule, containers),
        VariantFormat::Struct(fields) => fields_keep(fields.as_slice(), rule, containers),
    }
}

fn formats_keep(formats: &[Format], rule: Rule, containers: &Containers) -> bool
    ensures { result ≡ list_all (keeps rule (entries_of containers.now.entries.items))
        (shape_list (formats_shapes formats.now)) }
{
    for format in formats {
        if !format_keeps(format, rule, containers) {
            return false;
        }
    }
    true
}

fn fields_keep(fields: &[Named<Format>], rule: Rule, containers: &Containers) -> bool
    ensures { result ≡ list_all (keeps rule (entries_of containers.now.entries.items))
        (map (λ f. f.1) (map field_of fields.now)) }
{
    for field in fields {
        if !format_keeps(&field.value, rule, containers) {
            return false;
        }
    }
    true
}

fn format_keeps(format: &Format, rule: Rule, containers: &Containers) -> bool
    ensures { result ≡ keeps rule (entries_of containers.now.entries.items) (shape_of format.now) }
{
    match rule {
        Rule::FewLevels => has_few_levels(format),
        Rule::KnownNames => is_known(format, containers),
    }
}
