//! The JSON of containers.
ghost use Rattle.std.specs.Prelude.{◌≡◌, IfOk};
ghost use Rattle.bcs_registry_json.specs.Shown.{shown_container};
ghost use Rattle.bcs_registry_model.specs.View.{container_of};
ghost use Rattle.serde_json.specs.View.{view};

use super::formats::{field_values, format_value, format_values};
use super::pieces::{single_member, word};
use super::variants::variant_members;
use bcs_registry_model::Container;
use serde_json::Value;
use std::alloc::{AllocError, Global};

/// The JSON of a container: a string, or an object with one member.
pub fn container_value(alloc: Global, container: &Container) -> Result<Value, AllocError>
    ensures { IfOk result (λ v. view v ≡ shown_container (container_of container.now)) }
{
    match container {
        Container::UnitStruct => word(alloc, "UNITSTRUCT"),
        Container::NewTypeStruct(format) => {
            single_member(alloc, "NEWTYPESTRUCT", format_value(alloc, format)?)
        }
        Container::TupleStruct(formats) => {
            single_member(
                alloc,
                "TUPLESTRUCT",
                Value::Array(format_values(alloc, formats)?),
            )
        }
        Container::Struct(fields) => {
            single_member(alloc, "STRUCT", Value::Array(field_values(alloc, fields)?))
        }
        Container::Enum(variants) => {
            single_member(
                alloc,
                "ENUM",
                Value::Object(variant_members(alloc, variants)?),
            )
        }
    }
}
