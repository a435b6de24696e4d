//! The reference encoder: each map entry is encoded into a vector of its own, and the vectors are sorted by key.
ghost use Rattle.std.specs.Prelude.{map, ◌≡◌, ◌++◌, Ok};
ghost use Rattle.bcs_registry_model.specs.Container.{of, content, field_shapes, payload_shape};
ghost use Rattle.bcs_registry_model.specs.Shape.{tuple};
ghost use Rattle.bcs_registry_model.specs.View.{container_of, field_of, formats_shapes, payload_of, shape_of};
ghost use Rattle.bcs_value_model.specs.Tree.{items as items_tree};
ghost use Rattle.bcs_value_model.specs.View.{entries_pairs, items_trees, tree_of};
ghost use Rattle.bcs_encode_impl.specs.Laying.{entry_of};
ghost use Rattle.bcs_encode_impl.specs.Writing as spec;
ghost use Rattle.bcs_key_order.specs.Order.{has_equal_neighbours};
ghost use Rattle.bcs_encode_impl.specs.Writing.{ReportsVerdict, sorted_entries_written};
ghost use Rattle.std.specs.List.{flat_map};
ghost use Rattle.std.specs.List.Sorted.{IsPermutation, IsSortedByKey};
ghost use Rattle.std.specs.Ordering.{nat_cmp};
ghost use Rattle.std.specs.Cmp.Lexicographic.{slice_cmp};
ghost use Rattle.bcs_encode_spec.specs.Entries.{entry_bytes};

use crate::pushing::{push_byte, push_bytes, push_length, push_number, push_signed, push_unsigned};
use bcs_encode_spec::EncodeFault;
use bcs_num::Width;
use bcs_registry::{Container, Format, Named, Registry, VariantFormat};
use bcs_value::Value;
use std::alloc::Global;

/// Appends the encoding of a value.
#[cycle(by_entries)]
pub fn push_value(
    value: &Value,
    alloc: Global,
    registry: &Registry,
    format: &Format,
    out: &mut Vec<u8>,
) -> Result<(), EncodeFault>
    ensures { ReportsVerdict result (spec.written registry.now (tree_of value.now) (of (shape_of format.now)) out.old.items) out.new.items }
{
    match (value, format) {
        (_, Format::F32 | Format::F64 | Format::Char) => Err(EncodeFault::NotOfFormat),
        (Value::Unit, Format::Unit) => Ok(()),
        (Value::Bool(truth), Format::Bool) => push_byte(u8::from(*truth), out),
        (Value::Unsigned(number), Format::U8) => push_unsigned(Width::W1, *number, out),
        (Value::Unsigned(number), Format::U16) => push_unsigned(Width::W2, *number, out),
        (Value::Unsigned(number), Format::U32) => push_unsigned(Width::W4, *number, out),
        (Value::Unsigned(number), Format::U64) => push_unsigned(Width::W8, *number, out),
        (Value::Unsigned(number), Format::U128) => push_unsigned(Width::W16, *number, out),
        (Value::Signed(number), Format::I8) => push_signed(Width::W1, *number, out),
        (Value::Signed(number), Format::I16) => push_signed(Width::W2, *number, out),
        (Value::Signed(number), Format::I32) => push_signed(Width::W4, *number, out),
        (Value::Signed(number), Format::I64) => push_signed(Width::W8, *number, out),
        (Value::Signed(number), Format::I128) => push_signed(Width::W16, *number, out),
        (Value::Text(text), Format::Str) => push_bytes(text.as_bytes(), out),
        (Value::Bytes(bytes), Format::Bytes) => push_bytes(bytes, out),
        (Value::Absent, Format::Opt(_)) => push_byte(0, out),
        (Value::Present(inner), Format::Opt(content)) => {
            push_byte(1, out)?;
            push_value(inner, alloc, registry, content, out)
        }
        (Value::Items(items), Format::Seq(element)) => {
            push_length(items.len(), out)?;
            push_all(items, alloc, registry, element, out)
        }
        (Value::Items(items), Format::Tuple(formats)) => {
            push_each(items, alloc, registry, formats, out)
        }
        (Value::Items(items), Format::TupleArray(element, size)) => {
            if items.len() as u64 != *size {
                return Err(EncodeFault::NotOfFormat);
            }
            push_all(items, alloc, registry, element, out)
        }
        (Value::Pairs(pairs), Format::Map(key, value)) => {
            push_length(pairs.len(), out)?;
            let mut entries = Vec::new(alloc);
            collect_entries(pairs, alloc, registry, key, value, &mut entries)?;
            push_in_order(entries, out)
        }
        (Value::Named(inner), Format::TypeName(name)) => match registry.container(name.as_str()) {
            Some(container) => push_content(inner, alloc, registry, container, out),
            None => Err(EncodeFault::NotOfFormat),
        },
        _ => Err(EncodeFault::NotOfFormat),
    }
}

/// Appends the contents of a container.
#[cycle(by_entries)]
fn push_content(
    value: &Value,
    alloc: Global,
    registry: &Registry,
    container: &Container,
    out: &mut Vec<u8>,
) -> Result<(), EncodeFault>
    ensures { ReportsVerdict result (spec.written registry.now (tree_of value.now) (content (container_of container.now)) out.old.items) out.new.items }
{
    match (container, value) {
        (Container::UnitStruct, Value::Unit) => Ok(()),
        (Container::NewTypeStruct(format), _) => push_value(value, alloc, registry, format, out),
        (Container::TupleStruct(formats), Value::Items(items)) => {
            push_each(items, alloc, registry, formats, out)
        }
        (Container::Struct(fields), Value::Items(items)) => {
            push_fields(items, alloc, registry, fields, out)
        }
        (Container::Enum(variants), Value::Variant(number, inner)) => {
            push_number(*number, out)?;
            match variants.get(number) {
                Some(variant) => push_payload(inner, alloc, registry, &variant.value, out),
                None => Err(EncodeFault::NotOfFormat),
            }
        }
        _ => Err(EncodeFault::NotOfFormat),
    }
}

/// Appends the contents of a variant.
#[cycle(by_entries)]
fn push_payload(
    value: &Value,
    alloc: Global,
    registry: &Registry,
    payload: &VariantFormat,
    out: &mut Vec<u8>,
) -> Result<(), EncodeFault>
    ensures { ReportsVerdict result (spec.written registry.now (tree_of value.now) (of (payload_shape (payload_of payload.now))) out.old.items) out.new.items }
{
    match (payload, value) {
        (VariantFormat::Unit, Value::Unit) => Ok(()),
        (VariantFormat::NewType(format), _) => push_value(value, alloc, registry, format, out),
        (VariantFormat::Tuple(formats), Value::Items(items)) => {
            push_each(items, alloc, registry, formats, out)
        }
        (VariantFormat::Struct(fields), Value::Items(items)) => {
            push_fields(items, alloc, registry, fields, out)
        }
        _ => Err(EncodeFault::NotOfFormat),
    }
}

/// Appends elements of one format.
#[cycle(by_entries)]
fn push_all(
    items: &[Value],
    alloc: Global,
    registry: &Registry,
    element: &Format,
    out: &mut Vec<u8>,
) -> Result<(), EncodeFault>
    ensures { ReportsVerdict result (spec.items_written registry.now (items_trees items.now) (shape_of element.now) out.old.items) out.new.items }
{
    for item in items {
        push_value(item, alloc, registry, element, out)?;
    }
    Ok(())
}

/// Appends the elements of a tuple.
#[cycle(by_entries)]
#[tactic(auto, using(bcs_value_model::proofs::WalkViews::count_items, crate::proofs::WritingViews::count_formats))]
fn push_each(
    items: &[Value],
    alloc: Global,
    registry: &Registry,
    formats: &[Format],
    out: &mut Vec<u8>,
) -> Result<(), EncodeFault>
    ensures { ReportsVerdict result (spec.written registry.now (items_tree (items_trees items.now)) (of (tuple (formats_shapes formats.now))) out.old.items) out.new.items }
{
    if items.len() != formats.len() {
        return Err(EncodeFault::NotOfFormat);
    }
    for (i, item) in items.iter().enumerate() {
        push_value(item, alloc, registry, &formats[i], out)?;
    }
    Ok(())
}

/// Appends the fields of a struct.
#[cycle(by_entries)]
#[tactic(auto, using(bcs_value_model::proofs::WalkViews::count_items, crate::proofs::WritingViews::count_fields))]
fn push_fields(
    items: &[Value],
    alloc: Global,
    registry: &Registry,
    fields: &[Named<Format>],
    out: &mut Vec<u8>,
) -> Result<(), EncodeFault>
    ensures { ReportsVerdict result (spec.written registry.now (items_tree (items_trees items.now)) (of (tuple (field_shapes (map field_of fields.now)))) out.old.items) out.new.items }
{
    if items.len() != fields.len() {
        return Err(EncodeFault::NotOfFormat);
    }
    for (i, item) in items.iter().enumerate() {
        push_value(item, alloc, registry, &fields[i].value, out)?;
    }
    Ok(())
}

/// Appends the entries of a map to `entries`, in the order given.
#[cycle(by_entries)]
fn collect_entries(
    pairs: &[(Value, Value)],
    alloc: Global,
    registry: &Registry,
    key: &Format,
    value: &Format,
    entries: &mut Vec<EntryBytes>,
) -> Result<(), EncodeFault>
    ensures { ReportsVerdict result
        (spec.entries_written registry.now (entries_pairs pairs.now) (shape_of key.now) (shape_of value.now) (map entry_of entries.old.items))
        (map entry_of entries.new.items) }
{
    for (k, v) in pairs {
        let mut key_bytes = Vec::new(alloc);
        push_value(k, alloc, registry, key, &mut key_bytes)?;
        let mut value_bytes = Vec::new(alloc);
        push_value(v, alloc, registry, value, &mut value_bytes)?;
        entries.push(EntryBytes {
            key: key_bytes,
            value: value_bytes,
        })?;
    }
    Ok(())
}

/// The encoded key and value of a map entry.
#[derive(Drop)]
pub struct EntryBytes {
    pub key: Vec<u8>,
    pub value: Vec<u8>,
}

/// Sorts the entries by key and appends them, or returns `RepeatedKey`.
fn push_in_order(mut entries: Vec<EntryBytes>, out: &mut Vec<u8>) -> Result<(), EncodeFault>
    ensures { ReportsVerdict result (sorted_entries_written (map entry_of entries.items) out.old.items) out.new.items }
{
    sort_by_keys(&mut entries);
    if have_equal_neighbours(&entries) {
        return Err(EncodeFault::RepeatedKey);
    }
    push_entries(&entries, out)
}

fn sort_by_keys(entries: &mut Vec<EntryBytes>)
    ensures permutation { IsPermutation entries.old.items entries.new.items }
    ensures sorted { IsSortedByKey (λ e. e.key.items) (slice_cmp nat_cmp) entries.new.items }
{
    entries.sort_unstable_by(|a, b| { a.key.as_slice().cmp(b.key.as_slice()) });
}

/// Whether two neighbouring entries have the same key.
fn have_equal_neighbours(entries: &[EntryBytes]) -> bool
    ensures { result ≡ has_equal_neighbours (map entry_of entries.now) }
{
    for i in 1..entries.len() {
        if entries[i - 1].key.as_slice() == entries[i].key.as_slice() {
            return true;
        }
    }
    false
}

fn push_entries(entries: &[EntryBytes], out: &mut Vec<u8>) -> Result<(), EncodeFault>
    ensures { ReportsVerdict result (Ok (out.old.items ++ flat_map entry_bytes (map entry_of entries.now))) out.new.items }
{
    for entry in entries {
        out.extend_from_slice(&entry.key)?;
        out.extend_from_slice(&entry.value)?;
    }
    Ok(())
}
