//! Whether two values are equal, up to the order of map entries.
ghost use Rattle.std.specs.Prelude.{◌≡◌, ◌&&◌, drop};
ghost use Rattle.bcs_value_model.specs.Same as spec;
ghost use Rattle.bcs_value.specs.RepeatedEntries.{has_repeated_entries as spec_repeated};
ghost use Rattle.bcs_value_model.specs.View.{entries_pairs, items_trees, tree_of};

use bcs_value_model::Value;

/// Whether the values are equal. Maps are equal if each entry of either has an entry with the same key and the same
/// value in the other, in any order.
///
/// This defines sameness without encoding anything. It compares all entries with each other, which takes time quadratic
/// in the length of a map; comparing canonical bytes is faster.
#[cycle(same)]
pub fn same(a: &Value, b: &Value) -> bool
    ensures { result ≡ spec.same (tree_of a.now) (tree_of b.now) }
{
    match (a, b) {
        (Value::Unit, Value::Unit) => true,
        (Value::Bool(x), Value::Bool(y)) => *x == *y,
        (Value::Unsigned(x), Value::Unsigned(y)) => *x == *y,
        (Value::Signed(x), Value::Signed(y)) => *x == *y,
        (Value::Text(x), Value::Text(y)) => *x == *y,
        (Value::Bytes(x), Value::Bytes(y)) => *x == *y,
        (Value::Absent, Value::Absent) => true,
        (Value::Present(x), Value::Present(y)) => same(x, y),
        (Value::Items(xs), Value::Items(ys)) => all_same(xs, ys),
        (Value::Variant(m, x), Value::Variant(n, y)) => *m == *n && same(x, y),
        (Value::Pairs(xs), Value::Pairs(ys)) => same_pairs(xs, ys),
        (Value::Named(x), Value::Named(y)) => same(x, y),
        _ => false,
    }
}

#[cycle(same)]
fn all_same(xs: &[Value], ys: &[Value]) -> bool
    ensures { result ≡ spec.all_same (items_trees xs.now) (items_trees ys.now) }
{
    if xs.len() != ys.len() {
        return false;
    }
    for (i, x) in xs.iter().enumerate() {
        if !same(x, &ys[i]) {
            return false;
        }
    }
    true
}

#[cycle(same)]
fn same_pairs(xs: &[(Value, Value)], ys: &[(Value, Value)]) -> bool
    ensures { result ≡ spec.is_within (entries_pairs xs.now) (entries_pairs ys.now) && spec.all_pairs (spec.has_pair (entries_pairs xs.now)) (entries_pairs ys.now) }
{
    for pair in xs {
        if !is_among(pair, ys) {
            return false;
        }
    }
    // If `xs` has no repeated entries and the lengths are equal, each entry of `ys` is in `xs` too. Comparing them
    // again would double the work at each level of nested maps.
    if xs.len() == ys.len() && !has_repeated_entries(xs) {
        return true;
    }
    for (key, value) in ys {
        if !has_pair(xs, 0, key, value) {
            return false;
        }
    }
    true
}

// Whether an entry occurs twice.
#[cycle(same)]
fn has_repeated_entries(pairs: &[(Value, Value)]) -> bool
    ensures { result ≡ spec_repeated (entries_pairs pairs.now) }
{
    for (i, (key, value)) in pairs.iter().enumerate() {
        if has_pair(pairs, i + 1, key, value) {
            return true;
        }
    }
    false
}

#[cycle(same)]
fn is_among(pair: &(Value, Value), pairs: &[(Value, Value)]) -> bool
    ensures { result ≡ spec.any_pair (λ k v. spec.same (tree_of pair.now.0) k && spec.same (tree_of pair.now.1) v) (entries_pairs pairs.now) }
{
    for (key, value) in pairs {
        if same(&pair.0, key) && same(&pair.1, value) {
            return true;
        }
    }
    false
}

// Whether one of the pairs from index `from` on has this key and this value.
#[cycle(same)]
fn has_pair(pairs: &[(Value, Value)], from: usize, key: &Value, value: &Value) -> bool
    ensures { result ≡ spec.has_pair (entries_pairs (drop from pairs.now)) (tree_of key.now) (tree_of value.now) }
{
    for i in from..pairs.len() {
        if same(&pairs[i].0, key) && same(&pairs[i].1, value) {
            return true;
        }
    }
    false
}
