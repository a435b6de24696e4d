//! Takes arrays apart. Their items are moved, not copied.
ghost use Rattle.std.specs.Prelude.{◌≡◌, ◌≢◌, length, IfOk, IfErr, OnOk, OnErr, Err, ℕ, Bool};
ghost use Rattle.serde_json.specs.Data.{Data, Items, item, no_items, array};
ghost use Rattle.serde_json.specs.View.{view, items_view};
ghost use Rattle.bcs_value_model.specs.Tree.{Tree, Trees};
ghost use Rattle.bcs_json_spec.specs.Reading.{Read};
ghost use Rattle.bcs_json_spec.specs.declared.json_fault.JsonFault.TheVariants.{BadShape};
ghost use Rattle.bcs_json_reader.specs.Kinds.{list_json};
ghost use Rattle.bcs_json_spec.specs.Reading as spec;

use bcs_json_spec::JsonFault;
use serde_json::Value as Json;

/// The items of an array. `BadShape`: it isn't an array.
pub fn array_of(json: Json) -> Result<Vec<Json>, JsonFault>
    ensures ok { IfOk result (λ v. view json ≡ array (items_view v.items)) }
    ensures other { IfErr result (λ _. (ds : Items) → view json ≢ array ds) }
    ensures fault { IfErr result (λ e. e ≡ BadShape) }
{
    match json {
        Json::Array(items) => Ok(items),
        _ => Err(JsonFault::BadShape),
    }
}

/// The items of an array of exactly `count`. `BadShape`: it isn't one.
pub fn array_of_exactly(json: Json, count: u64) -> Result<Vec<Json>, JsonFault>
    ensures ok { IfOk result (λ v. view json ≡ array (items_view v.items)) }
    ensures count { IfOk result (λ v. length v.items ≡ count) }
    ensures fault { IfErr result (λ e. (r : Items → Read Trees) → spec.read_tuple count r (view json) ≡ Err e) }
{
    let items = array_of(json)?;
    exactly(items.len(), count)?;
    Ok(items)
}

/// Checks a number of items. `BadShape`: it isn't the expected one.
pub fn exactly(found: usize, expected: u64) -> Result<(), JsonFault>
    ensures ok { OnOk result (found ≡ expected) }
    ensures other { OnErr result (found ≢ expected) }
    ensures fault { IfErr result (λ e. e ≡ BadShape) }
{
    if found as u64 == expected {
        Ok(())
    } else {
        Err(JsonFault::BadShape)
    }
}

/// The key and the value of a map entry, which is an array of exactly two items. `BadShape`: it isn't one.
pub fn pair_of(entry: Json) -> Result<(Json, Json), JsonFault>
    ensures ok { IfOk result (λ p. view entry ≡ array (item (view p.0) (item (view p.1) no_items))) }
    ensures fault { IfErr result (λ e. (k : Data → Read Tree) (v : Data → Read Tree) → spec.read_pair k v (view entry) ≡ Err e) }
{
    two_items(array_of(entry)?)
}

// The items, if there are exactly two.
fn two_items(items: Vec<Json>) -> Result<(Json, Json), JsonFault>
    ensures ok { IfOk result (λ p. items_view items.items ≡ item (view p.0) (item (view p.1) no_items)) }
    ensures other { IfErr result (λ _. (a : Data) (b : Data) → items_view items.items ≢ item a (item b no_items)) }
    ensures fault { IfErr result (λ e. e ≡ BadShape) }
{
    let mut rest = items.into_iter();
    let first = rest.next().ok_or(JsonFault::BadShape)?;
    let second = rest.next().ok_or(JsonFault::BadShape)?;
    if rest.next().is_none() {
        Ok((first, second))
    } else {
        Err(JsonFault::BadShape)
    }
}

/// The JSON of a list: an array of its elements, or a string.
#[derive(Drop)]
pub enum ListJson {
    Array(Vec<Json>),
    Text(String),
}

/// Takes an array or a string. `BadShape`: it is neither.
pub fn list_of(json: Json) -> Result<ListJson, JsonFault>
    ensures ok { IfOk result (λ list. view json ≡ list_json list) }
    ensures fault { IfErr result (λ e. (bytes : Bool) (r : Data → Read Tree) → spec.read_seq bytes r (view json) ≡ Err e) }
    ensures sized { IfErr result (λ e. (bytes : Bool) (n : ℕ) (r : Data → Read Tree) → spec.read_array bytes n r (view json) ≡ Err e) }
{
    match json {
        Json::Array(items) => Ok(ListJson::Array(items)),
        Json::String(text) => Ok(ListJson::Text(text)),
        _ => Err(JsonFault::BadShape),
    }
}
