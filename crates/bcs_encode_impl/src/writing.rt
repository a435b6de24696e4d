//! The recursive part of the encoder. Each function receives how many more containers may open (`depth`) and how many
//! more nodes may begin (`nodes`). It returns how many nodes are left, or `None` at the first part that isn't sound.
//! What it validates is appended to the output, as far as that accepts it.
ghost use Rattle.std.specs.Prelude.{◌≡◌, IfSome, map};
ghost use Rattle.bcs_registry_model.specs.Container.{of, content, field_shapes, payload_shape};
ghost use Rattle.bcs_registry_model.specs.Shape.{name as name_shape, seq, tuple};
ghost use Rattle.bcs_registry_model.specs.View.{container_of, field_of, formats_shapes, payload_of, shape_of};
ghost use Rattle.bcs_value_model.specs.Tree.{items as items_tree, named as named_tree, pairs as pairs_tree};
ghost use Rattle.bcs_value_model.specs.View.{entries_pairs, items_trees, tree_of};
ghost use Rattle.bcs_encode_spec.specs.Plain.{plain, plain_items};
ghost use Rattle.bcs_encode_impl.specs.Writing.{items_written, written};
ghost use Rattle.bcs_encode_impl.specs.Appends.{Appends, Gives};
ghost use Rattle.bcs_encode_impl.specs.Validating as spec;

use crate::leaves::{take, write_bytes, write_numbers, write_signed, write_text, write_unsigned};
use crate::output::Output;
use bcs_key_order::spans::Span;
use bcs_num::LENGTH_LIMIT;
use bcs_registry::{Container, Format, Named, Registry, VariantFormat};
use bcs_registry_model::IntegerKind;
use bcs_value::Value;

/// Validates and appends a value of a format.
#[cycle(writing)]
pub fn write_value(
    value: &Value,
    registry: &Registry,
    format: &Format,
    depth: u64,
    nodes: u64,
    out: &mut Output,
) -> Option<u64>
    ensures validated { result ≡ spec.validated registry.now (tree_of value.now) (of (shape_of format.now)) depth nodes }
    ensures appended { IfSome result (λ _. Appends out.old out.new (written registry.now (tree_of value.now) (of (shape_of format.now)))) }
    ensures given { IfSome result (λ _. Gives out.old out.new (plain registry.now (tree_of value.now) (of (shape_of format.now)))) }
{
    match (value, format) {
        (Value::Unit, Format::Unit) => take(1, nodes),
        (Value::Bool(truth), Format::Bool) => {
            out.push_byte(u8::from(*truth));
            take(1, nodes)
        }
        (Value::Unsigned(number), _) => write_unsigned(format, nodes, number, out),
        (Value::Signed(number), _) => write_signed(format, nodes, number, out),
        (Value::Text(text), Format::Str) => write_text(nodes, text.as_str(), out),
        (Value::Bytes(bytes), Format::Bytes) => write_bytes(nodes, bytes, out),
        (Value::Absent, Format::Opt(_)) => {
            out.push_byte(0);
            take(1, nodes)
        }
        (Value::Present(inner), Format::Opt(content)) => {
            out.push_byte(1);
            write_value(inner, registry, content, depth, take(1, nodes)?, out)
        }
        (Value::Items(items), Format::Seq(element)) => {
            write_list(items, registry, element, depth, nodes, out)
        }
        (Value::Items(items), Format::Tuple(formats)) => {
            write_each(items, registry, formats, depth, nodes, out)
        }
        (Value::Items(items), Format::TupleArray(element, size)) => {
            if items.len() as u64 != *size {
                return None;
            }
            write_all(items, registry, element, depth, take(1, nodes)?, out)
        }
        (Value::Pairs(pairs), _) => write_map(pairs, registry, format, depth, nodes, out),
        (Value::Named(inner), Format::TypeName(name)) => {
            write_named(inner, registry, name.as_str(), depth, nodes, out)
        }
        _ => None,
    }
}

/// Validates and appends a value of the container `name`.
#[cycle(writing)]
fn write_named(
    inner: &Value,
    registry: &Registry,
    name: &str,
    depth: u64,
    nodes: u64,
    out: &mut Output,
) -> Option<u64>
    ensures validated { result ≡ spec.validated registry.now (named_tree (tree_of inner.now)) (of (name_shape name.now)) depth nodes }
    ensures appended { IfSome result (λ _. Appends out.old out.new (written registry.now (named_tree (tree_of inner.now)) (of (name_shape name.now)))) }
    ensures given { IfSome result (λ _. Gives out.old out.new (plain registry.now (named_tree (tree_of inner.now)) (of (name_shape name.now)))) }
{
    let depth = take(1, depth)?;
    let nodes = take(1, nodes)?;
    match registry.container(name) {
        Some(container) => write_content(inner, registry, container, depth, nodes, out),
        None => None,
    }
}

/// Validates and appends the contents of a container.
#[cycle(writing)]
fn write_content(
    value: &Value,
    registry: &Registry,
    container: &Container,
    depth: u64,
    nodes: u64,
    out: &mut Output,
) -> Option<u64>
    ensures validated { result ≡ spec.validated registry.now (tree_of value.now) (content (container_of container.now)) depth nodes }
    ensures appended { IfSome result (λ _. Appends out.old out.new (written registry.now (tree_of value.now) (content (container_of container.now)))) }
    ensures given { IfSome result (λ _. Gives out.old out.new (plain registry.now (tree_of value.now) (content (container_of container.now)))) }
{
    match (container, value) {
        (Container::UnitStruct, Value::Unit) => take(1, nodes),
        (Container::NewTypeStruct(format), _) => write_value(
            value, registry, format, depth, nodes, out,
        ),
        (Container::TupleStruct(formats), Value::Items(items)) => {
            write_each(items, registry, formats, depth, nodes, out)
        }
        (Container::Struct(fields), Value::Items(items)) => {
            write_fields(items, registry, fields, depth, nodes, out)
        }
        (Container::Enum(variants), Value::Variant(number, inner)) => {
            let number = *number;
            let nodes = take(1, nodes)?;
            out.push_number(number);
            match variants.get(&number) {
                Some(variant) => write_payload(inner, registry, &variant.value, depth, nodes, out),
                None => None,
            }
        }
        _ => None,
    }
}

/// Validates and appends the contents of a variant.
#[cycle(writing)]
fn write_payload(
    value: &Value,
    registry: &Registry,
    payload: &VariantFormat,
    depth: u64,
    nodes: u64,
    out: &mut Output,
) -> Option<u64>
    ensures validated { result ≡ spec.validated registry.now (tree_of value.now) (of (payload_shape (payload_of payload.now))) depth nodes }
    ensures appended { IfSome result (λ _. Appends out.old out.new (written registry.now (tree_of value.now) (of (payload_shape (payload_of payload.now))))) }
    ensures given { IfSome result (λ _. Gives out.old out.new (plain registry.now (tree_of value.now) (of (payload_shape (payload_of payload.now))))) }
{
    match (payload, value) {
        (VariantFormat::Unit, Value::Unit) => take(1, nodes),
        (VariantFormat::NewType(format), _) => write_value(
            value, registry, format, depth, nodes, out,
        ),
        (VariantFormat::Tuple(formats), Value::Items(items)) => {
            write_each(items, registry, formats, depth, nodes, out)
        }
        (VariantFormat::Struct(fields), Value::Items(items)) => {
            write_fields(items, registry, fields, depth, nodes, out)
        }
        _ => None,
    }
}

/// Validates and appends a list.
#[cycle(writing)]
#[tactic(auto, using(bcs_value_model::proofs::WalkViews::count_items))]
fn write_list(
    items: &[Value],
    registry: &Registry,
    element: &Format,
    depth: u64,
    nodes: u64,
    out: &mut Output,
) -> Option<u64>
    ensures validated { result ≡ spec.validated registry.now (items_tree (items_trees items.now)) (of (seq (shape_of element.now))) depth nodes }
    ensures appended { IfSome result (λ _. Appends out.old out.new (written registry.now (items_tree (items_trees items.now)) (of (seq (shape_of element.now))))) }
    ensures given { IfSome result (λ _. Gives out.old out.new (plain registry.now (items_tree (items_trees items.now)) (of (seq (shape_of element.now))))) }
{
    if items.len() > LENGTH_LIMIT {
        return None;
    }
    out.push_length(items.len());
    write_all(items, registry, element, depth, take(1, nodes)?, out)
}

/// Validates and appends elements of one format.
#[cycle(writing)]
fn write_all(
    items: &[Value],
    registry: &Registry,
    element: &Format,
    depth: u64,
    nodes: u64,
    out: &mut Output,
) -> Option<u64>
    ensures validated { result ≡ spec.all_validated registry.now (items_trees items.now) (shape_of element.now) depth nodes }
    ensures appended { IfSome result (λ _. Appends out.old out.new (items_written registry.now (items_trees items.now) (shape_of element.now))) }
    ensures given { IfSome result (λ _. Gives out.old out.new (plain_items registry.now (items_trees items.now) (shape_of element.now))) }
{
    if let Some(format) = IntegerKind::of(element) {
        return write_numbers(format, nodes, items, out);
    }
    if let Format::TypeName(name) = element {
        return write_all_named(items, registry, name.as_str(), depth, nodes, out);
    }
    let mut left = nodes;
    for item in items {
        left = write_value(item, registry, element, depth, left, out)?;
    }
    Some(left)
}

/// Validates and appends values of one container, which is looked up once for all.
#[cycle(writing)]
fn write_all_named(
    items: &[Value],
    registry: &Registry,
    name: &str,
    depth: u64,
    nodes: u64,
    out: &mut Output,
) -> Option<u64>
    ensures validated { result ≡ spec.all_validated registry.now (items_trees items.now) (name_shape name.now) depth nodes }
    ensures appended { IfSome result (λ _. Appends out.old out.new (items_written registry.now (items_trees items.now) (name_shape name.now))) }
    ensures given { IfSome result (λ _. Gives out.old out.new (plain_items registry.now (items_trees items.now) (name_shape name.now))) }
{
    let found = registry.container(name);
    let mut left = nodes;
    for item in items {
        left = match (item, found) {
            (Value::Named(inner), Some(container)) => write_content(
                inner,
                registry,
                container,
                take(1, depth)?,
                take(1, left)?,
                out,
            )?,
            _ => return None,
        };
    }
    Some(left)
}

/// Validates and appends a tuple.
#[cycle(writing)]
fn write_each(
    items: &[Value],
    registry: &Registry,
    formats: &[Format],
    depth: u64,
    nodes: u64,
    out: &mut Output,
) -> Option<u64>
    ensures validated { result ≡ spec.validated registry.now (items_tree (items_trees items.now)) (of (tuple (formats_shapes formats.now))) depth nodes }
    ensures appended { IfSome result (λ _. Appends out.old out.new (written registry.now (items_tree (items_trees items.now)) (of (tuple (formats_shapes formats.now))))) }
    ensures given { IfSome result (λ _. Gives out.old out.new (plain registry.now (items_tree (items_trees items.now)) (of (tuple (formats_shapes formats.now))))) }
{
    if items.len() != formats.len() {
        return None;
    }
    let mut left = take(1, nodes)?;
    for (i, item) in items.iter().enumerate() {
        left = write_value(item, registry, &formats[i], depth, left, out)?;
    }
    Some(left)
}

/// Validates and appends the fields of a struct.
#[cycle(writing)]
fn write_fields(
    items: &[Value],
    registry: &Registry,
    fields: &[Named<Format>],
    depth: u64,
    nodes: u64,
    out: &mut Output,
) -> Option<u64>
    ensures validated { result ≡ spec.validated registry.now (items_tree (items_trees items.now)) (of (tuple (field_shapes (map field_of fields.now)))) depth nodes }
    ensures appended { IfSome result (λ _. Appends out.old out.new (written registry.now (items_tree (items_trees items.now)) (of (tuple (field_shapes (map field_of fields.now)))))) }
    ensures given { IfSome result (λ _. Gives out.old out.new (plain registry.now (items_tree (items_trees items.now)) (of (tuple (field_shapes (map field_of fields.now)))))) }
{
    if items.len() != fields.len() {
        return None;
    }
    let mut left = take(1, nodes)?;
    for (i, item) in items.iter().enumerate() {
        left = write_value(item, registry, &fields[i].value, depth, left, out)?;
    }
    Some(left)
}

/// Validates the entries of a map, without comparing keys, and appends them as given. The output then sorts them if it
/// can.
#[cycle(writing)]
#[tactic(auto, using(bcs_value_model::proofs::WalkViews::count_pairs))]
fn write_map(
    pairs: &[(Value, Value)],
    registry: &Registry,
    format: &Format,
    depth: u64,
    nodes: u64,
    out: &mut Output,
) -> Option<u64>
    ensures validated { result ≡ spec.validated registry.now (pairs_tree (entries_pairs pairs.now)) (of (shape_of format.now)) depth nodes }
    ensures appended { IfSome result (λ _. Appends out.old out.new (written registry.now (pairs_tree (entries_pairs pairs.now)) (of (shape_of format.now)))) }
    ensures given { IfSome result (λ _. Gives out.old out.new (plain registry.now (pairs_tree (entries_pairs pairs.now)) (of (shape_of format.now)))) }
{
    let Format::Map(key, value) = format else {
        return None;
    };
    if pairs.len() > LENGTH_LIMIT {
        return None;
    }
    out.push_length(pairs.len());
    let first = out.spans.len();
    let start = out.bytes.len();
    let mut left = take(1, nodes)?;
    let mut before = None;
    for (k, v) in pairs {
        let start = out.bytes.len();
        left = write_value(k, registry, key, depth, left, out)?;
        let end = out.bytes.len();
        left = write_value(v, registry, value, depth, left, out)?;
        let entry = Span {
            start,
            end,
            value: out.bytes.len(),
        };
        out.end_entry(before, entry);
        before = Some(entry);
    }
    out.end_map(first, start);
    Some(left)
}
