//! Values without maps.
ghost use Rattle.std.specs.Prelude.{◌≡◌};
ghost use Rattle.bcs_encode.specs.WithoutMaps as spec;
ghost use Rattle.bcs_value_model.specs.View.{items_trees, tree_of};

use bcs_value::Value;

/// Whether the value is a map or contains one.
#[cycle(maps)]
pub(crate) fn holds_map(value: &Value) -> bool
    ensures { result ≡ spec.holds_map (tree_of value.now) }
{
    match value {
        Value::Present(inner) | Value::Variant(_, inner) | Value::Named(inner) => holds_map(inner),
        Value::Items(items) => any_holds_map(items),
        Value::Pairs(_) => true,
        Value::Unit
        | Value::Bool(_)
        | Value::Unsigned(_)
        | Value::Signed(_)
        | Value::Text(_)
        | Value::Bytes(_)
        | Value::Absent => false,
    }
}

#[cycle(maps)]
fn any_holds_map(items: &[Value]) -> bool
    ensures { result ≡ spec.any_holds_map (items_trees items.now) }
{
    for item in items {
        if holds_map(item) {
            return true;
        }
    }
    false
}
