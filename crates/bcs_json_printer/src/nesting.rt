//! How deep the JSON of a value nests, without building it.
ghost use Rattle.std.specs.Prelude.{◌≡◌, ◌||◌, Some, true, map, nat_le, string_bytes};
ghost use Rattle.std.specs.List.{list_all};
ghost use Rattle.serde_json.specs.Data.{array, depth, items_depth, members_depth};
ghost use Rattle.bcs_registry_model.specs.View.{container_of, field_of, formats_shapes, payload_of, shape_of};
ghost use Rattle.bcs_registry_model.specs.WellFormed.{are_distinct, container_names, payload_names};
ghost use Rattle.bcs_value_model.specs.View.{entries_pairs, items_trees, tree_of};
ghost use Rattle.bcs_json_spec.specs.Bytes.{is_byte};
ghost use Rattle.bcs_json_spec.specs.JsonContent.{json_content, of};
ghost use Rattle.bcs_json_spec.specs.Shown.{shown, shown_all, shown_choice, shown_each, shown_fields, shown_pairs};

use bcs_registry::{Container, Format, Named, Registry, VariantFormat};
use bcs_value_model::Value;

/// Whether arrays and objects nest at most `limit` deep in the JSON of the value. The recursion is as deep as that
/// nesting, plus the nesting of containers.
#[cycle(nesting)]
pub fn shown_nests_within(registry: &Registry, format: &Format, limit: u32, value: &Value) -> bool
    ensures { result ≡ nat_le (depth (shown registry.now (tree_of value.now) (of (shape_of format.now)))) limit }
{
    match (value, format) {
        (Value::Present(inner), Format::Opt(content)) => {
            0 < limit && shown_nests_within(registry, content, limit - 1, inner)
        }
        (Value::Items(items), Format::Seq(element)) => {
            list_nests_within(registry, element, limit, items)
        }
        (Value::Items(items), Format::TupleArray(element, _)) => {
            list_nests_within(registry, element, limit, items)
        }
        (Value::Items(items), Format::Tuple(formats)) => {
            0 < limit && each_nests_within(registry, formats, limit - 1, items)
        }
        (Value::Pairs(pairs), Format::Map(key, value)) => {
            0 < limit && pairs_nest_within(registry, key, value, limit - 1, pairs)
        }
        (Value::Named(inner), Format::TypeName(name)) => match registry.container(name.as_str()) {
            Some(container) => content_nests_within(registry, container, limit, inner),
            None => true,
        },
        (
            Value::Unit
            | Value::Bool(_)
            | Value::Unsigned(_)
            | Value::Signed(_)
            | Value::Text(_)
            | Value::Bytes(_)
            | Value::Absent
            | Value::Variant(..),
            _,
        ) => true,
        _ => true,
    }
}

/// Like [`shown_nests_within`], for a container's content.
#[cycle(nesting)]
fn content_nests_within(
    registry: &Registry,
    container: &Container,
    limit: u32,
    value: &Value,
) -> bool
    requires distinct { list_all are_distinct (container_names (container_of container.now)) ≡ true }
    ensures { result ≡ nat_le (depth (shown registry.now (tree_of value.now) (json_content (container_of container.now)))) limit }
{
    match (container, value) {
        (Container::NewTypeStruct(format), _) => shown_nests_within(registry, format, limit, value),
        (Container::TupleStruct(formats), Value::Items(items)) => {
            0 < limit && each_nests_within(registry, formats, limit - 1, items)
        }
        (Container::Struct(fields), Value::Items(items)) => {
            0 < limit && fields_nest_within(registry, fields, limit - 1, items)
        }
        (Container::Enum(variants), Value::Variant(number, inner)) => match variants.get(number) {
            Some(variant) => variant_nests_within(registry, variant, limit, inner),
            None => true,
        },
        _ => true,
    }
}

/// The same for a variant. Its name alone doesn't nest, but an object with its payload does.
#[cycle(nesting)]
fn variant_nests_within(
    registry: &Registry,
    variant: &Named<VariantFormat>,
    limit: u32,
    value: &Value,
) -> bool
    requires distinct { list_all are_distinct (payload_names (payload_of variant.now.value)) ≡ true }
    ensures { result ≡ nat_le (depth (shown_choice (shown registry.now (tree_of value.now))
        (Some (string_bytes variant.now.name, payload_of variant.now.value)))) limit }
{
    match (&variant.value, value) {
        (VariantFormat::Unit, _) => true,
        (VariantFormat::NewType(format), _) => {
            0 < limit && shown_nests_within(registry, format, limit - 1, value)
        }
        (VariantFormat::Tuple(formats), Value::Items(items)) => {
            1 < limit && each_nests_within(registry, formats, limit - 2, items)
        }
        (VariantFormat::Struct(fields), Value::Items(items)) => {
            1 < limit && fields_nest_within(registry, fields, limit - 2, items)
        }
        _ => 0 < limit,
    }
}

/// The same for a list or an array. Bytes are a string.
#[cycle(nesting)]
fn list_nests_within(registry: &Registry, element: &Format, limit: u32, items: &[Value]) -> bool
    ensures { result ≡ (is_byte (shape_of element.now)
        || nat_le (depth (array (shown_all registry.now (items_trees items.now) (shape_of element.now)))) limit) }
{
    if matches!(element, Format::U8) {
        return true;
    }
    0 < limit && all_nest_within(registry, element, limit - 1, items)
}

/// Whether each element of a list nests at most `limit` deep.
#[cycle(nesting)]
fn all_nest_within(registry: &Registry, element: &Format, limit: u32, items: &[Value]) -> bool
    ensures { result ≡ nat_le (items_depth (shown_all registry.now (items_trees items.now) (shape_of element.now))) limit }
{
    for item in items {
        if !shown_nests_within(registry, element, limit, item) {
            return false;
        }
    }
    true
}

/// The same for the elements of a tuple.
#[cycle(nesting)]
fn each_nests_within(registry: &Registry, formats: &[Format], limit: u32, items: &[Value]) -> bool
    ensures { result ≡ nat_le (items_depth (shown_each registry.now (items_trees items.now) (formats_shapes formats.now))) limit }
{
    for (i, item) in items.iter().enumerate() {
        if i >= formats.len() {
            return true;
        }
        if !shown_nests_within(registry, &formats[i], limit, item) {
            return false;
        }
    }
    true
}

/// The same for the fields of a struct, whose names are distinct.
#[cycle(nesting)]
fn fields_nest_within(
    registry: &Registry,
    fields: &[Named<Format>],
    limit: u32,
    items: &[Value],
) -> bool
    requires distinct { are_distinct (map (λ f. f.0) (map field_of fields.now)) ≡ true }
    ensures { result ≡ nat_le (members_depth (shown_fields registry.now (items_trees items.now) (map field_of fields.now))) limit }
{
    for (i, item) in items.iter().enumerate() {
        if i >= fields.len() {
            return true;
        }
        if !shown_nests_within(registry, &fields[i].value, limit, item) {
            return false;
        }
    }
    true
}

/// The same for the entries of a map, each of which is an array.
#[cycle(nesting)]
fn pairs_nest_within(
    registry: &Registry,
    key: &Format,
    value: &Format,
    limit: u32,
    pairs: &[(Value, Value)],
) -> bool
    ensures { result ≡ nat_le (items_depth (shown_pairs registry.now (entries_pairs pairs.now) (shape_of key.now) (shape_of value.now))) limit }
{
    for (k, v) in pairs {
        if limit == 0
            || !shown_nests_within(registry, key, limit - 1, k)
            || !shown_nests_within(registry, value, limit - 1, v)
        {
            return false;
        }
    }
    true
}
