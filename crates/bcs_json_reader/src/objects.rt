//! Takes objects apart, and `null` and strings where they are alternatives. Members are moved, not copied.
ghost use Rattle.std.specs.Prelude.{◌≡◌, ◌≢◌, ℕ, List, IfOk, IfErr, OnOk, OnErr, Err, Some, None, string_bytes, option_map};
ghost use Rattle.serde_json.specs.Data.{Data, Members, object, member, no_members};
ghost use Rattle.serde_json.specs.Find.{get_member};
ghost use Rattle.serde_json.specs.View.{view, members_view};
ghost use Rattle.bcs_registry_model.specs.Container.{Field, Choice};
ghost use Rattle.bcs_value_model.specs.Tree.{Tree};
ghost use Rattle.bcs_json_spec.specs.Look.{without};
ghost use Rattle.bcs_json_spec.specs.Reading.{Read};
ghost use Rattle.bcs_json_spec.specs.declared.json_fault.JsonFault.TheVariants.{BadShape, UnknownField, MissingField};
ghost use Rattle.bcs_json_reader.specs.Kinds.{option_json, enum_json};
ghost use Rattle.bcs_json_spec.specs.Reading as spec;

use bcs_json_spec::JsonFault;
use serde_json::{Map, Value as Json};

/// The members of an object. `BadShape`: it isn't an object.
pub fn object_of(json: Json) -> Result<Map<String, Json>, JsonFault>
    ensures ok { IfOk result (λ ms. view json ≡ object (members_view ms.entries)) }
    ensures other { IfErr result (λ _. (ms : Members) → view json ≢ object ms) }
    ensures fault { IfErr result (λ e. (named : List ℕ → Data → Read Tree) (fs : List Field) → spec.read_struct named fs (view json) ≡ Err e) }
{
    match json {
        Json::Object(members) => Ok(members),
        _ => Err(JsonFault::BadShape),
    }
}

// The only member of an object. `BadShape`: there is none, or more than one.
fn only_member(members: Map<String, Json>) -> Result<(String, Json), JsonFault>
    ensures ok { IfOk result (λ p. members_view members.entries ≡ member (string_bytes p.0) (view p.1) no_members) }
    ensures other { IfErr result (λ _. (k : List ℕ) (d : Data) → members_view members.entries ≢ member k d no_members) }
    ensures fault { IfErr result (λ e. e ≡ BadShape) }
{
    let mut entries = members.into_iter();
    let first = entries.next().ok_or(JsonFault::BadShape)?;
    if entries.next().is_none() {
        Ok(first)
    } else {
        Err(JsonFault::BadShape)
    }
}

/// Removes the member of a field and returns it. `MissingField`: there is none.
#[tactic(auto, using(crate::proofs::Taken::left_without, crate::proofs::Taken::found_member))]
pub fn take_field(members: &mut Map<String, Json>, name: &str) -> Result<Json, JsonFault>
    ensures ok { IfOk result (λ j. get_member name.now (members_view members.old.entries) ≡ Some (view j)) }
    ensures missing { IfErr result (λ _. get_member name.now (members_view members.old.entries) ≡ None) }
    ensures fault { IfErr result (λ e. e ≡ MissingField) }
    ensures left { members_view members.new.entries ≡ without name.now (members_view members.old.entries) }
{
    let Some(member) = members.remove(name) else {
        return Err(JsonFault::MissingField);
    };
    Ok(member)
}

/// Checks that no member is left. `UnknownField`: one is.
pub fn no_member_left(members: &Map<String, Json>) -> Result<(), JsonFault>
    ensures ok { OnOk result (members_view members.now.entries ≡ no_members) }
    ensures left { OnErr result (members_view members.now.entries ≢ no_members) }
    ensures fault { IfErr result (λ e. e ≡ UnknownField) }
{
    if members.is_empty() {
        Ok(())
    } else {
        Err(JsonFault::UnknownField)
    }
}

/// The content of an option: none for `null`, else the only member of an object, named `some`. `BadShape`: other JSON.
pub fn option_of(json: Json) -> Result<Option<Json>, JsonFault>
    ensures ok { IfOk result (λ part. view json ≡ option_json (option_map view part)) }
    ensures fault { IfErr result (λ e. (r : Data → Read Tree) → spec.read_option r (view json) ≡ Err e) }
{
    match json {
        Json::Null => Ok(None),
        Json::Object(members) => {
            let (name, part) = only_member(members)?;
            if name.as_str() == "some" {
                Ok(Some(part))
            } else {
                Err(JsonFault::BadShape)
            }
        }
        _ => Err(JsonFault::BadShape),
    }
}

/// The JSON of an enum: the name of a variant, alone or with the payload.
#[derive(Drop)]
pub enum EnumJson {
    Name(String),
    Member(String, Json),
}

/// Takes a string, or an object with exactly one member. `BadShape`: it is neither.
pub fn enum_of(json: Json) -> Result<EnumJson, JsonFault>
    ensures ok { IfOk result (λ choice. view json ≡ enum_json choice) }
    ensures fault { IfErr result (λ e. (named : List ℕ → Data → Read Tree) (cs : List Choice) → spec.read_enum named cs (view json) ≡ Err e) }
{
    match json {
        Json::String(name) => Ok(EnumJson::Name(name)),
        Json::Object(members) => {
            let (name, part) = only_member(members)?;
            Ok(EnumJson::Member(name, part))
        }
        _ => Err(JsonFault::BadShape),
    }
}
