//! How deep arrays and objects nest.
ghost use Rattle.std.specs.Prelude.{◌≡◌, nat_le};
ghost use Rattle.serde_json.specs.Data.{depth, items_depth, members_depth};
ghost use Rattle.serde_json.specs.View.{view, items_view, members_view};

use serde_json::{Map, Value};

/// How deep arrays and objects may nest in the JSON of a value, on input and output.
pub const NESTING_LIMIT: u32 = 100;

/// Whether arrays and objects nest at most `limit` levels deep. An empty one counts as one level.
#[cycle(nesting)]
pub fn nests_within(value: &Value, limit: u32) -> bool
    ensures { result ≡ nat_le (depth (view value.now)) limit }
{
    match value {
        Value::Array(items) => 0 < limit && items_nest_within(items, limit - 1),
        Value::Object(members) => 0 < limit && members_nest_within(members, limit - 1),
        _ => true,
    }
}

#[cycle(nesting)]
fn items_nest_within(items: &Vec<Value>, limit: u32) -> bool
    ensures { result ≡ nat_le (items_depth (items_view items.now.items)) limit }
{
    for item in items {
        if !nests_within(item, limit) {
            return false;
        }
    }
    true
}

#[cycle(nesting)]
fn members_nest_within(members: &Map<String, Value>, limit: u32) -> bool
    ensures { result ≡ nat_le (members_depth (members_view members.now.entries)) limit }
{
    for (_name, member) in members.iter() {
        if !nests_within(member, limit) {
            return false;
        }
    }
    true
}
