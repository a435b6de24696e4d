//! How deep containers nest.
ghost use Rattle.std.specs.Prelude.{◌≡◌, min};
ghost use Rattle.bcs_value_model.specs.Tree as spec;
ghost use Rattle.bcs_value_model.specs.View.{entries_pairs, items_trees, tree_of};

use bcs_value_model::Value;

/// The greatest number of `Named` on a path from the root, at most 18446744073709551615.
#[cycle(depth)]
pub fn depth(value: &Value) -> u64
    ensures { result ≡ min (spec.depth (tree_of value.now)) 18446744073709551615 }
{
    match value {
        Value::Present(inner) | Value::Variant(_, inner) => depth(inner),
        Value::Named(inner) => depth(inner).saturating_add(1),
        Value::Items(items) => items_depth(items),
        Value::Pairs(pairs) => pairs_depth(pairs),
        Value::Unit
        | Value::Bool(_)
        | Value::Unsigned(_)
        | Value::Signed(_)
        | Value::Text(_)
        | Value::Bytes(_)
        | Value::Absent => 0,
    }
}

#[cycle(depth)]
fn items_depth(items: &[Value]) -> u64
    ensures { result ≡ min (spec.trees_depth (items_trees items.now)) 18446744073709551615 }
{
    let mut greatest = 0;
    for item in items {
        greatest = depth(item).max(greatest);
    }
    greatest
}

#[cycle(depth)]
fn pairs_depth(pairs: &[(Value, Value)]) -> u64
    ensures { result ≡ min (spec.pairs_depth (entries_pairs pairs.now)) 18446744073709551615 }
{
    let mut greatest = 0;
    for (key, value) in pairs {
        greatest = depth(key).max(depth(value)).max(greatest);
    }
    greatest
}
