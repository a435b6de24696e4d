//! Checks whether a value fits a format.
ghost use Rattle.std.specs.Prelude.{◌≡◌, false, true, map};
ghost use Rattle.bcs_registry_model.specs.Container.{Entries, of, content, field_shapes, payload_shape};
ghost use Rattle.bcs_registry_model.specs.Shape.{array};
ghost use Rattle.bcs_registry_model.specs.View.{container_of, field_of, formats_shapes, payload_of, shape_of};
ghost use Rattle.bcs_value_model.specs.Fits as spec;
ghost use Rattle.bcs_value_model.specs.Tree.{items as items_tree, signed, unsigned};
ghost use Rattle.bcs_value_model.specs.View.{entries_pairs, items_trees, tree_of};

use bcs_registry::{Container, Format, Named, Registry, VariantFormat};
use bcs_registry_model::{IntegerKind, Kind, Scalar};
use bcs_value_model::Value;

/// Whether the value fits the format: its parts are of the right kind and number, and its integers are in range. No
/// value fits `F32`, `F64` or `CHAR`.
pub fn has_format(registry: &Registry, format: &Format, value: &Value) -> bool
    ensures { result ≡ spec.fits false registry.now (tree_of value.now) (of (shape_of format.now)) }
{
    fits(value, registry, format, false)
}

/// Whether the value would fit the format if every value fitted `F32`, `F64` and `CHAR`.
pub fn fits_loosely(registry: &Registry, format: &Format, value: &Value) -> bool
    ensures { result ≡ spec.fits true registry.now (tree_of value.now) (of (shape_of format.now)) }
{
    fits(value, registry, format, true)
}

/// Whether the value fits the format. If `loose`, every value fits `F32`, `F64` and `CHAR`.
#[cycle(fits)]
fn fits(value: &Value, registry: &Registry, format: &Format, loose: bool) -> bool
    ensures { result ≡ spec.fits loose registry.now (tree_of value.now) (of (shape_of format.now)) }
{
    match (value, format) {
        (Value::Unsigned(number), _) => unsigned_fits(number, format, loose),
        (Value::Signed(number), _) => signed_fits(number, format, loose),
        (_, Format::F32 | Format::F64 | Format::Char) => loose,
        (Value::Unit, Format::Unit) => true,
        (Value::Bool(_), Format::Bool) => true,
        (Value::Text(_), Format::Str) => true,
        (Value::Bytes(bytes), Format::Bytes) => are_bytes(bytes),
        (Value::Absent, Format::Opt(_)) => true,
        (Value::Present(inner), Format::Opt(content)) => fits(inner, registry, content, loose),
        (Value::Items(items), Format::Seq(element)) => all_fit(items, registry, element, loose),
        (Value::Items(items), Format::Tuple(formats)) => each_fits(items, registry, formats, loose),
        (Value::Items(items), Format::TupleArray(element, size)) => array_fits(
            items, registry, element, *size, loose,
        ),
        (Value::Pairs(pairs), Format::Map(key, value)) => pairs_fit(
            pairs, registry, key, value, loose,
        ),
        (Value::Named(inner), Format::TypeName(name)) => match registry.container(name.as_str()) {
            Some(container) => fills(inner, registry, container, loose),
            None => false,
        },
        _ => false,
    }
}

/// Whether an unsigned integer fits the format.
#[inline(always)]
fn unsigned_fits(number: &u128, format: &Format, loose: bool) -> bool
    ensures { (r : Entries) → result ≡ spec.fits loose r (unsigned number.now) (of (shape_of format.now)) }
{
    match format.kind() {
        Kind::Scalar(Scalar::Whole(IntegerKind::Unsigned(width))) => width.holds_unsigned(*number),
        Kind::Scalar(Scalar::Unsupported(_)) => loose,
        Kind::Scalar(
            Scalar::Unit
            | Scalar::Bool
            | Scalar::Whole(IntegerKind::Signed(_))
            | Scalar::Str
            | Scalar::Bytes,
        )
        | Kind::TypeName(_)
        | Kind::Opt(_)
        | Kind::Seq(_)
        | Kind::Map(_, _)
        | Kind::Tuple(_)
        | Kind::TupleArray(_, _) => false,
    }
}

/// Whether a signed integer fits the format.
#[inline(always)]
fn signed_fits(number: &i128, format: &Format, loose: bool) -> bool
    ensures { (r : Entries) → result ≡ spec.fits loose r (signed number.now) (of (shape_of format.now)) }
{
    match format.kind() {
        Kind::Scalar(Scalar::Whole(IntegerKind::Signed(width))) => width.holds_signed(*number),
        Kind::Scalar(Scalar::Unsupported(_)) => loose,
        Kind::Scalar(
            Scalar::Unit
            | Scalar::Bool
            | Scalar::Whole(IntegerKind::Unsigned(_))
            | Scalar::Str
            | Scalar::Bytes,
        )
        | Kind::TypeName(_)
        | Kind::Opt(_)
        | Kind::Seq(_)
        | Kind::Map(_, _)
        | Kind::Tuple(_)
        | Kind::TupleArray(_, _) => false,
    }
}

/// Always true: each `u8` is a byte. The contract states that for the definition of `fits`.
fn are_bytes(bytes: &[u8]) -> bool
    ensures { result ≡ spec.are_bytes bytes.now }
{
    true
}

#[cycle(fits)]
fn fills(value: &Value, registry: &Registry, container: &Container, loose: bool) -> bool
    ensures { result ≡ spec.fits loose registry.now (tree_of value.now) (content (container_of container.now)) }
{
    match (container, value) {
        (Container::UnitStruct, Value::Unit) => true,
        (Container::NewTypeStruct(format), _) => fits(value, registry, format, loose),
        (Container::TupleStruct(formats), Value::Items(items)) => each_fits(
            items, registry, formats, loose,
        ),
        (Container::Struct(fields), Value::Items(items)) => fields_fit(
            items, registry, fields, loose,
        ),
        (Container::Enum(variants), Value::Variant(number, inner)) => {
            let number = *number;
            match variants.get(&number) {
                Some(variant) => pays(inner, registry, &variant.value, loose),
                None => false,
            }
        }
        _ => false,
    }
}

#[cycle(fits)]
fn pays(value: &Value, registry: &Registry, payload: &VariantFormat, loose: bool) -> bool
    ensures { result ≡ spec.fits loose registry.now (tree_of value.now) (of (payload_shape (payload_of payload.now))) }
{
    match (payload, value) {
        (VariantFormat::Unit, Value::Unit) => true,
        (VariantFormat::NewType(format), _) => fits(value, registry, format, loose),
        (VariantFormat::Tuple(formats), Value::Items(items)) => each_fits(
            items, registry, formats, loose,
        ),
        (VariantFormat::Struct(fields), Value::Items(items)) => fields_fit(
            items, registry, fields, loose,
        ),
        _ => false,
    }
}

#[cycle(fits)]
fn all_fit(items: &[Value], registry: &Registry, format: &Format, loose: bool) -> bool
    ensures { result ≡ spec.all_fit loose registry.now (items_trees items.now) (shape_of format.now) }
{
    for item in items {
        if !fits(item, registry, format, loose) {
            return false;
        }
    }
    true
}

#[cycle(fits)]
#[tactic(auto, using(bcs_value_model::proofs::WalkViews::count_items))]
fn array_fits(items: &[Value], registry: &Registry, format: &Format, size: u64, loose: bool) -> bool
    ensures { result ≡ spec.fits loose registry.now (items_tree (items_trees items.now)) (of (array (shape_of format.now) size)) }
{
    items.len() as u64 == size && all_fit(items, registry, format, loose)
}

#[cycle(fits)]
fn each_fits(items: &[Value], registry: &Registry, formats: &[Format], loose: bool) -> bool
    ensures { result ≡ spec.each_fits loose registry.now (items_trees items.now) (formats_shapes formats.now) }
{
    if items.len() != formats.len() {
        return false;
    }
    for (i, item) in items.iter().enumerate() {
        if !fits(item, registry, &formats[i], loose) {
            return false;
        }
    }
    true
}

#[cycle(fits)]
fn fields_fit(items: &[Value], registry: &Registry, fields: &[Named<Format>], loose: bool) -> bool
    ensures { result ≡ spec.each_fits loose registry.now (items_trees items.now) (field_shapes (map field_of fields.now)) }
{
    if items.len() != fields.len() {
        return false;
    }
    for (i, item) in items.iter().enumerate() {
        if !fits(item, registry, &fields[i].value, loose) {
            return false;
        }
    }
    true
}

#[cycle(fits)]
fn pairs_fit(
    pairs: &[(Value, Value)],
    registry: &Registry,
    key: &Format,
    value: &Format,
    loose: bool,
) -> bool
    ensures { result ≡ spec.pairs_fit loose registry.now (entries_pairs pairs.now) (shape_of key.now) (shape_of value.now) }
{
    for (k, v) in pairs {
        if !(fits(k, registry, key, loose) && fits(v, registry, value, loose)) {
            return false;
        }
    }
    true
}
