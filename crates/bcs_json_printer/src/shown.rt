//! Prints a value: sends its JSON to a serializer, from front to back, without building a tree of it.
ghost use Rattle.std.specs.Prelude.{◌≡◌, ◌≤◌, IfSome, IsTrue, OnOk, false, is_some, Some, if◌then◌else◌, map, string_bytes, true};
ghost use Rattle.std.specs.List.{list_all};
ghost use Rattle.hex.specs.Hex.{encode_lower};
ghost use Rattle.serde_json.specs.Data.{array, depth, null, object, string};
ghost use Rattle.serde_json.specs.Events.{SendsValue};
ghost use Rattle.bcs_registry_model.specs.Container.{content, field_shapes, of as at_format, payload_shape};
ghost use Rattle.bcs_registry_model.specs.View.{container_of, field_of, formats_shapes, payload_of, shape_of};
ghost use Rattle.bcs_registry_model.specs.WellFormed.{are_distinct, container_names};
ghost use Rattle.bcs_value_model.specs.Fits.{Fits, all_fit, each_fits, fits, pairs_fit};
ghost use Rattle.bcs_value_model.specs.View.{entries_pairs, items_trees, tree_of};
ghost use Rattle.bcs_json_spec.specs.Bytes.{is_byte, trees_bytes};
ghost use Rattle.bcs_json_spec.specs.JsonContent.{json_content, of, payload_content};
ghost use Rattle.bcs_json_spec.specs.Shown.{shown, shown_all, shown_choice, shown_each, shown_fields, shown_pairs};
ghost use Rattle.bcs_json_printer.specs.Places.{IsOrder};

use crate::field_order::{is_order, sent_places};
use crate::leaves::{
    close_map, close_seq, open_map, open_seq, send_byte_list, send_bytes, send_name,
    send_narrow_signed, send_narrow_unsigned, send_null, send_text, send_truth, send_wide_signed,
    send_wide_unsigned,
};
use bcs_registry::{Container, Format, Named, Registry, VariantFormat};
use bcs_value::has_format;
use bcs_value_model::Value;
use serde::{Described, Serialize, Serializer};
use std::alloc::Global;

/// A value of the format, which serializes as its JSON.
#[derive(Clone, Copy)]
pub struct Shown<'a> {
    pub value: &'a Value,
    pub format: &'a Format,
    pub registry: &'a Registry,
    pub alloc: Global,
    pub ghost fits: { Fits registry.now (shape_of format.now) (tree_of value.now) },
}

impl<'a> Shown<'a> {
    /// The value as JSON, to put into a larger JSON of yours. `None` exactly if the value isn't one of the format.
    pub fn new(
        alloc: Global,
        registry: &'a Registry,
        format: &'a Format,
        value: &'a Value,
    ) -> Option<Shown<'a>>
        ensures validates { is_some result ≡ fits false registry.now (tree_of value.now) (at_format (shape_of format.now)) }
        ensures holds { IfSome result (λ s.
            (s.registry.now ≡ registry.now) × (s.format.now ≡ format.now) × (s.value.now ≡ value.now)) }
    {
        if has_format(registry, format, value) {
            Some(Shown {
                value,
                format,
                registry,
                alloc,
            })
        } else {
            None
        }
    }
}

impl Described for Shown<'_> {
    ghost writes = { λ s. SendsValue (shown s.registry.now (tree_of s.value.now) (of (shape_of s.format.now))) };
}

impl Serialize for Shown<'_> {
    fn serialize<S: Serializer>(&self, out: &mut S) -> Result<(), S::Error> {
        // (memory ends before a value nests that deep)
        send_shown(self, usize::MAX, out)
    }
}

/// The same, if the JSON nests at most `limit` deep. Otherwise serializing fails.
#[derive(Clone, Copy)]
pub(crate) struct ShownWithin<'a> {
    pub shown: Shown<'a>,
    pub limit: usize,
}

impl Described for ShownWithin<'_> {
    ghost writes = { λ s old new. SendsValue (shown s.shown.registry.now (tree_of s.shown.value.now) (of (shape_of s.shown.format.now))) old new
        × (depth (shown s.shown.registry.now (tree_of s.shown.value.now) (of (shape_of s.shown.format.now))) ≤ s.limit) };
}

impl Serialize for ShownWithin<'_> {
    fn serialize<S: Serializer>(&self, out: &mut S) -> Result<(), S::Error> {
        send_shown(&self.shown, self.limit, out)
    }
}

fn send_shown<S: Serializer>(from: &Shown<'_>, left: usize, out: &mut S) -> Result<(), S::Error>
    ensures sends { OnOk result (SendsValue (shown from.now.registry.now (tree_of from.now.value.now) (of (shape_of from.now.format.now))) (S.written out.old) (S.written out.new)) }
    ensures nests { OnOk result (depth (shown from.now.registry.now (tree_of from.now.value.now) (of (shape_of from.now.format.now))) ≤ left) }
{
    let context = Context {
        alloc: from.alloc,
        registry: from.registry,
    };
    send_value(&context, from.format, left, from.value, out)
}

/// What stays the same while a value is sent.
#[derive(Clone, Copy)]
struct Context<'a> {
    alloc: Global,
    registry: &'a Registry,
}

/// Sends the JSON of a value of the format, if it nests at most `left` deep.
#[cycle(sending)]
fn send_value<S: Serializer>(
    context: &Context<'_>,
    format: &Format,
    left: usize,
    value: &Value,
    out: &mut S,
) -> Result<(), S::Error>
    requires fits { Fits context.now.registry.now (shape_of format.now) (tree_of value.now) }
    ensures sends { OnOk result (SendsValue (shown context.now.registry.now (tree_of value.now) (of (shape_of format.now))) (S.written out.old) (S.written out.new)) }
    ensures nests { OnOk result (depth (shown context.now.registry.now (tree_of value.now) (of (shape_of format.now))) ≤ left) }
{
    match (value, format) {
        (Value::Bool(truth), Format::Bool) => send_truth(*truth, out),
        (Value::Unsigned(number), Format::U8 | Format::U16 | Format::U32) => {
            send_narrow_unsigned(*number, out)
        }
        (Value::Unsigned(number), Format::U64 | Format::U128) => send_wide_unsigned(*number, out),
        (Value::Signed(number), Format::I8 | Format::I16 | Format::I32) => {
            send_narrow_signed(*number, out)
        }
        (Value::Signed(number), Format::I64 | Format::I128) => send_wide_signed(*number, out),
        (Value::Text(text), Format::Str) => send_text(text.as_str(), out),
        (Value::Bytes(bytes), Format::Bytes) => send_bytes(context.alloc, bytes.as_slice(), out),
        (Value::Present(inner), Format::Opt(content)) => {
            open_map(left, 1, out)?;
            send_name("some", out)?;
            send_value(context, content, left - 1, inner, out)?;
            close_map(out)
        }
        (Value::Items(items), Format::Seq(element)) => {
            send_list(context, element, left, items, out)
        }
        (Value::Items(items), Format::TupleArray(element, _)) => {
            send_list(context, element, left, items, out)
        }
        (Value::Items(items), Format::Tuple(formats)) => {
            send_each(context, formats, left, items, out)
        }
        (Value::Pairs(pairs), Format::Map(key, content)) => {
            send_pairs(context, key, content, left, pairs, out)
        }
        (Value::Named(inner), Format::TypeName(name)) => {
            match context.registry.container_with_order(name.as_str()) {
                Some((container, order)) => {
                    send_content(context, container, order, left, inner, out)
                }
                None => send_null(out),
            }
        }
        _ => send_nothing(context.registry, format, value, out),
    }
}

/// Sends the JSON of a container's content. `order` is a guess at the order of its fields.
#[cycle(sending)]
fn send_content<S: Serializer>(
    context: &Context<'_>,
    container: &Container,
    order: &[u32],
    left: usize,
    value: &Value,
    out: &mut S,
) -> Result<(), S::Error>
    requires distinct { list_all are_distinct (container_names (container_of container.now)) ≡ true }
    requires fits { IsTrue (fits false context.now.registry.now (tree_of value.now) (content (container_of container.now))) }
    ensures sends { OnOk result (SendsValue (shown context.now.registry.now (tree_of value.now) (json_content (container_of container.now))) (S.written out.old) (S.written out.new)) }
    ensures nests { OnOk result (depth (shown context.now.registry.now (tree_of value.now) (json_content (container_of container.now))) ≤ left) }
{
    match (container, value) {
        (Container::NewTypeStruct(format), _) => send_value(context, format, left, value, out),
        (Container::TupleStruct(formats), Value::Items(items)) => {
            send_each(context, formats, left, items, out)
        }
        (Container::Struct(fields), Value::Items(items)) => {
            if is_order(fields, order) {
                send_in_order(context, fields, order, left, items, out)
            } else {
                send_fields(context, fields, left, items, out)
            }
        }
        (Container::Enum(variants), Value::Variant(number, inner)) => match variants.get(number) {
            Some(variant) => send_variant(context, variant, left, inner, out),
            None => send_null(out),
        },
        _ => send_null(out),
    }
}

/// Sends the JSON of a variant: its name alone, or an object with its payload.
#[cycle(sending)]
fn send_variant<S: Serializer>(
    context: &Context<'_>,
    variant: &Named<VariantFormat>,
    left: usize,
    value: &Value,
    out: &mut S,
) -> Result<(), S::Error>
    requires fits { IsTrue (fits false context.now.registry.now (tree_of value.now) (at_format (payload_shape (payload_of variant.now.value)))) }
    ensures sends { OnOk result (SendsValue (shown_choice (shown context.now.registry.now (tree_of value.now))
        (Some (string_bytes variant.now.name, payload_of variant.now.value))) (S.written out.old) (S.written out.new)) }
    ensures nests { OnOk result (depth (shown_choice (shown context.now.registry.now (tree_of value.now))
        (Some (string_bytes variant.now.name, payload_of variant.now.value))) ≤ left) }
{
    let name = variant.name.as_str();
    if matches!(variant.value, VariantFormat::Unit) {
        return send_text(name, out);
    }
    open_map(left, 1, out)?;
    send_name(name, out)?;
    send_payload(context, &variant.value, left - 1, value, out)?;
    close_map(out)
}

/// Sends the JSON of a variant's payload.
#[cycle(sending)]
fn send_payload<S: Serializer>(
    context: &Context<'_>,
    payload: &VariantFormat,
    left: usize,
    value: &Value,
    out: &mut S,
) -> Result<(), S::Error>
    requires fits { IsTrue (fits false context.now.registry.now (tree_of value.now) (at_format (payload_shape (payload_of payload.now)))) }
    ensures sends { OnOk result (SendsValue (shown context.now.registry.now (tree_of value.now) (payload_content (payload_of payload.now))) (S.written out.old) (S.written out.new)) }
    ensures nests { OnOk result (depth (shown context.now.registry.now (tree_of value.now) (payload_content (payload_of payload.now))) ≤ left) }
{
    match (payload, value) {
        (VariantFormat::NewType(format), _) => send_value(context, format, left, value, out),
        (VariantFormat::Tuple(formats), Value::Items(items)) => {
            send_each(context, formats, left, items, out)
        }
        (VariantFormat::Struct(fields), Value::Items(items)) => {
            send_fields(context, fields, left, items, out)
        }
        _ => send_null(out),
    }
}

/// Sends the JSON of a list or an array. For bytes it is a string.
#[cycle(sending)]
fn send_list<S: Serializer>(
    context: &Context<'_>,
    element: &Format,
    left: usize,
    items: &[Value],
    out: &mut S,
) -> Result<(), S::Error>
    requires fits { IsTrue (all_fit false context.now.registry.now (items_trees items.now) (shape_of element.now)) }
    ensures sends { OnOk result (SendsValue (if is_byte (shape_of element.now)
        then string (encode_lower (trees_bytes (items_trees items.now)))
        else array (shown_all context.now.registry.now (items_trees items.now) (shape_of element.now))) (S.written out.old) (S.written out.new)) }
    ensures nests { OnOk result (depth (if is_byte (shape_of element.now)
        then string (encode_lower (trees_bytes (items_trees items.now)))
        else array (shown_all context.now.registry.now (items_trees items.now) (shape_of element.now))) ≤ left) }
{
    if matches!(element, Format::U8) {
        return send_byte_list(context.alloc, items, out);
    }
    send_all(context, element, left, items, out)
}

/// Sends the elements of one format, as an array.
#[cycle(sending)]
fn send_all<S: Serializer>(
    context: &Context<'_>,
    element: &Format,
    left: usize,
    items: &[Value],
    out: &mut S,
) -> Result<(), S::Error>
    requires fits { IsTrue (all_fit false context.now.registry.now (items_trees items.now) (shape_of element.now)) }
    ensures sends { OnOk result (SendsValue (array (shown_all context.now.registry.now (items_trees items.now) (shape_of element.now))) (S.written out.old) (S.written out.new)) }
    ensures nests { OnOk result (depth (array (shown_all context.now.registry.now (items_trees items.now) (shape_of element.now))) ≤ left) }
{
    open_seq(left, items.len(), out)?;
    for item in items {
        send_value(context, element, left - 1, item, out)?;
    }
    close_seq(out)
}

/// Sends the elements of a tuple, as an array.
#[cycle(sending)]
fn send_each<S: Serializer>(
    context: &Context<'_>,
    formats: &[Format],
    left: usize,
    items: &[Value],
    out: &mut S,
) -> Result<(), S::Error>
    requires fits { IsTrue (each_fits false context.now.registry.now (items_trees items.now) (formats_shapes formats.now)) }
    ensures sends { OnOk result (SendsValue (array (shown_each context.now.registry.now (items_trees items.now) (formats_shapes formats.now))) (S.written out.old) (S.written out.new)) }
    ensures nests { OnOk result (depth (array (shown_each context.now.registry.now (items_trees items.now) (formats_shapes formats.now))) ≤ left) }
{
    open_seq(left, items.len(), out)?;
    for (i, item) in items.iter().enumerate() {
        send_value(context, &formats[i], left - 1, item, out)?;
    }
    close_seq(out)
}

/// Sends the fields of a struct as an object, sorted by the bytes of their names.
#[cycle(sending)]
fn send_fields<S: Serializer>(
    context: &Context<'_>,
    fields: &[Named<Format>],
    left: usize,
    items: &[Value],
    out: &mut S,
) -> Result<(), S::Error>
    requires fits { IsTrue (each_fits false context.now.registry.now (items_trees items.now) (field_shapes (map field_of fields.now))) }
    ensures sends { OnOk result (SendsValue (object (shown_fields context.now.registry.now (items_trees items.now) (map field_of fields.now))) (S.written out.old) (S.written out.new)) }
    ensures nests { OnOk result (depth (object (shown_fields context.now.registry.now (items_trees items.now) (map field_of fields.now))) ≤ left) }
{
    let places = sent_places(context.alloc, fields, out)?;
    open_map(left, places.len(), out)?;
    for (name, place) in places.iter() {
        let i = *place;
        send_name(*name, out)?;
        send_value(context, &fields[i].value, left - 1, &items[i], out)?;
    }
    close_map(out)
}

/// The same for distinct names whose order is known.
#[cycle(sending)]
fn send_in_order<S: Serializer>(
    context: &Context<'_>,
    fields: &[Named<Format>],
    order: &[u32],
    left: usize,
    items: &[Value],
    out: &mut S,
) -> Result<(), S::Error>
    requires distinct { are_distinct (map (λ f. f.0) (map field_of fields.now)) ≡ true }
    requires order { IsOrder fields.now order.now }
    requires fits { IsTrue (each_fits false context.now.registry.now (items_trees items.now) (field_shapes (map field_of fields.now))) }
    ensures sends { OnOk result (SendsValue (object (shown_fields context.now.registry.now (items_trees items.now) (map field_of fields.now))) (S.written out.old) (S.written out.new)) }
    ensures nests { OnOk result (depth (object (shown_fields context.now.registry.now (items_trees items.now) (map field_of fields.now))) ≤ left) }
{
    open_map(left, order.len(), out)?;
    for place in order {
        let i = *place as usize;
        let field = &fields[i];
        send_name(field.name.as_str(), out)?;
        send_value(context, &field.value, left - 1, &items[i], out)?;
    }
    close_map(out)
}

/// Sends the entries of a map in the order given, as an array of arrays.
#[cycle(sending)]
fn send_pairs<S: Serializer>(
    context: &Context<'_>,
    key: &Format,
    value: &Format,
    left: usize,
    pairs: &[(Value, Value)],
    out: &mut S,
) -> Result<(), S::Error>
    requires fits { IsTrue (pairs_fit false context.now.registry.now (entries_pairs pairs.now) (shape_of key.now) (shape_of value.now)) }
    ensures sends { OnOk result (SendsValue (array (shown_pairs context.now.registry.now (entries_pairs pairs.now) (shape_of key.now) (shape_of value.now))) (S.written out.old) (S.written out.new)) }
    ensures nests { OnOk result (depth (array (shown_pairs context.now.registry.now (entries_pairs pairs.now) (shape_of key.now) (shape_of value.now))) ≤ left) }
{
    open_seq(left, pairs.len(), out)?;
    for (k, v) in pairs {
        open_seq(left - 1, 2, out)?;
        send_value(context, key, left - 2, k, out)?;
        send_value(context, value, left - 2, v, out)?;
        close_seq(out)?;
    }
    close_seq(out)
}

/// Sends `null` for a value whose JSON that is. The equation in its contract proves the last arm of [`send_value`].
fn send_nothing<S: Serializer>(
    registry: &Registry,
    format: &Format,
    value: &Value,
    out: &mut S,
) -> Result<(), S::Error>
    requires nothing { shown registry.now (tree_of value.now) (of (shape_of format.now)) ≡ null }
    ensures { OnOk result (SendsValue (shown registry.now (tree_of value.now) (of (shape_of format.now)))
        (S.written out.old) (S.written out.new)) }
{
    send_null(out)
}
