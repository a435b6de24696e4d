//! The JSON of containers of structs and enums.

use crate::enums::put_enum;
use crate::fields::{Given, put_fields};
use crate::maker::Maker;
use bcs_move_types::chains::Chain;
use bcs_move_types::declarations::Declaration;
use bcs_move_types::members::{array_in, bool_in};
use bcs_move_types::place::{Place, member};
use bcs_move_types::refusal::{MoveFault, MoveRefusalName, refusal};
use std::alloc::Global;

/// Appends the container of a struct or enum with these type arguments.
pub(crate) fn put_container(
    alloc: Global,
    maker: &mut Maker<'_, '_>,
    declaration: &Declaration<'_>,
    arguments: &[String],
    out: &mut String,
) -> Result<(), MoveFault> {
    let place = Place::At(declaration.pointer.as_str());
    let given = Given {
        chain: declaration.chain,
        arguments,
    };
    if declaration.is_enum_of_aptos() {
        let message =
            "this is an enum, and what Aptos returns for enums isn't supported: write its container by hand";
        return Err(refusal(alloc, MoveRefusalName::UnknownVariants, &place, message));
    }
    if declaration.is_enum {
        return put_enum(alloc, maker, &given, declaration.value, &place, out);
    }
    refuse_native(alloc, declaration, &place)?;
    let fields = array_in(alloc, declaration.value, "fields", &place)?;
    let place = member(&place, "fields");
    if fields.is_empty() {
        let message =
            "there are none, and Move has no struct without fields: it is an enum that the chain's answer doesn't describe, so write its container by hand";
        return Err(refusal(alloc, MoveRefusalName::UnknownVariants, &place, message));
    }
    out.push_str("{\"STRUCT\":")?;
    put_fields(alloc, maker, &given, fields, &place, out)?;
    Ok(out.push('}')?)
}

/// Refuses a native struct of Aptos. (Sui doesn't say which ones are native.)
fn refuse_native(
    alloc: Global,
    declaration: &Declaration<'_>,
    place: &Place<'_>,
) -> Result<(), MoveFault> {
    if declaration.chain == Chain::Aptos && bool_in(alloc, declaration.value, "is_native", place)? {
        let place = member(place, "is_native");
        let message = "the struct is native, so nobody knows its bytes from here";
        return Err(refusal(alloc, MoveRefusalName::NoBytes, &place, message));
    }
    Ok(())
}
