//! Why a struct is refused: a member was refused, or isn't a field.
ghost use Rattle.bcs_json_tokens.specs.Slots.{IsFieldRefused, IsNameRefused};
ghost use Rattle.bcs_json_passing.specs.Passing.{IfRefused};

use crate::slots::first_empty;
use bcs_json_passing::given_up::GivenUp;
use bcs_json_passing::others::{pass_named, pass_others};
use bcs_json_passing::refusing::within_member;
use bcs_json_spec::JsonFault;
use bcs_registry::{Format, Named};
use bcs_value_model::Value;
use json::Reader;
use std::alloc::Global;

/// The refusal of a struct whose field at `place` was refused. Gives up unless the fields before it were read, and no
/// later member belongs to one of these.
#[inline(never)]
pub(crate) fn refused_field(
    alloc: Global,
    fields: &[Named<Format>],
    slots: &Vec<Option<Value>>,
    place: usize,
    given_up: GivenUp,
    depth: usize,
    reader: &mut Reader<'_>,
) -> GivenUp
    ensures { IfRefused (IsFieldRefused fields.now slots.now.items place depth reader.old reader.new given_up) result }
{
    match given_up {
        GivenUp::Unusual => GivenUp::Unusual,
        GivenUp::OutOfMemory => GivenUp::OutOfMemory,
        GivenUp::Refused(refusal) => {
            if place >= fields.len() || first_empty(slots.as_slice()) != place {
                return GivenUp::Unusual;
            }
            match pass_others(&fields[..place + 1], depth, reader) {
                Ok(()) => {
                    let name = fields[place].name.as_str();
                    within_member(alloc, name, Box::into_inner(refusal))
                }
                Err(given_up) => given_up,
            }
        }
    }
}

/// The refusal of a struct with a member `name` that isn't a field: the first field without a value is missing or, if
/// there is none, the member is unknown. Gives up if this or a later member belongs to a field up to the missing one.
#[inline(never)]
pub(crate) fn refused_name(
    alloc: Global,
    fields: &[Named<Format>],
    slots: &Vec<Option<Value>>,
    name: &str,
    depth: usize,
    reader: &mut Reader<'_>,
) -> GivenUp
    ensures { IfRefused (IsNameRefused fields.now slots.now.items name.now depth reader.old reader.new) result }
{
    let place = first_empty(slots.as_slice());
    if place < fields.len() {
        match pass_named(&fields[..place + 1], name, depth, reader) {
            Ok(()) => GivenUp::here(alloc, JsonFault::MissingField),
            Err(given_up) => given_up,
        }
    } else {
        match pass_named(fields, name, depth, reader) {
            Ok(()) => GivenUp::here(alloc, JsonFault::UnknownField),
            Err(given_up) => given_up,
        }
    }
}
