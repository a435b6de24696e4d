//! The number of nodes of a value.
ghost use Rattle.std.specs.Prelude.{◌≡◌, ◌+◌, min};
ghost use Rattle.bcs_value_model.specs.Tree as spec;
ghost use Rattle.bcs_value_model.specs.View.{entries_pairs, items_trees, tree_of};

use bcs_value_model::Value;

/// The number of nodes: the value itself and all values inside it, at most 18446744073709551615.
#[cycle(nodes)]
pub fn nodes(value: &Value) -> u64
    ensures { result ≡ min (spec.nodes (tree_of value.now)) 18446744073709551615 }
{
    match value {
        Value::Present(inner) | Value::Variant(_, inner) | Value::Named(inner) => {
            nodes(inner).saturating_add(1)
        }
        Value::Items(items) => items_nodes(items).saturating_add(1),
        Value::Pairs(pairs) => pairs_nodes(pairs).saturating_add(1),
        Value::Unit
        | Value::Bool(_)
        | Value::Unsigned(_)
        | Value::Signed(_)
        | Value::Text(_)
        | Value::Bytes(_)
        | Value::Absent => 1,
    }
}

#[cycle(nodes)]
fn items_nodes(items: &[Value]) -> u64
    ensures { result ≡ min (spec.trees_nodes (items_trees items.now)) 18446744073709551615 }
{
    let mut total: u64 = 0;
    for item in items {
        total = total.saturating_add(nodes(item));
    }
    total
}

#[cycle(nodes)]
fn pairs_nodes(pairs: &[(Value, Value)]) -> u64
    ensures { result ≡ min (spec.pairs_nodes (entries_pairs pairs.now)) 18446744073709551615 }
{
    let mut total: u64 = 0;
    for (key, value) in pairs {
        total = total
            .saturating_add(nodes(key))
            .saturating_add(nodes(value));
    }
    total
}
