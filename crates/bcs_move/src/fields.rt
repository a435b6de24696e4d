//! The JSON of fields.

use crate::closed_type::closed_type;
use crate::formats::put_format;
use crate::maker::Maker;
use bcs_move_types::chains::Chain;
use bcs_move_types::declarations::type_in;
use bcs_move_types::members::{no_name, text_in};
use bcs_move_types::place::{Place, item, member};
use bcs_move_types::refusal::{MoveFault, MoveRefusalName, refusal};
use bcs_move_types::words::is_field_name;
use serde_json::Value;
use std::alloc::Global;
use std::collections::BTreeSet;

/// What the types of fields are read with.
#[derive(Clone, Copy)]
pub(crate) struct Given<'g> {
    /// The chain that wrote them.
    pub(crate) chain: Chain,
    /// The texts of the type arguments.
    pub(crate) arguments: &'g [String],
}

/// Appends the fields of a struct or variant.
pub(crate) fn put_fields(
    alloc: Global,
    maker: &mut Maker<'_, '_>,
    given: &Given<'_>,
    values: &[Value],
    place: &Place<'_>,
    out: &mut String,
) -> Result<(), MoveFault> {
    let mut names = BTreeSet::new(alloc);
    out.push('[')?;
    for (number, value) in values.iter().enumerate() {
        let place = item(place, number);
        let name = field_name(alloc, value, &place)?;
        if !names.insert(name)? {
            let place = member(&place, "name");
            let message = "another field before it has this name";
            return Err(refusal(alloc, MoveRefusalName::RepeatedName, &place, message));
        }
        if number > 0 {
            out.push(',')?;
        }
        put_field(alloc, maker, given, value, &place, out)?;
    }
    Ok(out.push(']')?)
}

fn field_name<'v>(
    alloc: Global,
    value: &'v Value,
    place: &Place<'_>,
) -> Result<&'v str, MoveFault> {
    let name = text_in(alloc, value, "name", place)?;
    if is_field_name(name) {
        Ok(name)
    } else {
        Err(no_name(alloc, value.get("name"), &member(place, "name")))
    }
}

fn put_field(
    alloc: Global,
    maker: &mut Maker<'_, '_>,
    given: &Given<'_>,
    value: &Value,
    place: &Place<'_>,
    out: &mut String,
) -> Result<(), MoveFault> {
    let name = field_name(alloc, value, place)?;
    let kind = type_in(alloc, value, given.chain, place)?;
    let place = member(place, "type");
    maker.budget.pay(alloc, name.len(), &place)?;
    let kind = closed_type(alloc, &kind, given.arguments, &place, &mut maker.budget)?;
    out.push_str("{\"")?;
    out.push_str(name)?;
    out.push_str("\":")?;
    put_format(alloc, maker, &kind, &place, out)?;
    Ok(out.push('}')?)
}
