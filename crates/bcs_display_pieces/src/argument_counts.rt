//! A list that has another number of arguments than the function.

use crate::ending::{InnerStop, Why, refusal_with};
use crate::functions::Function;
use crate::halt::Halt;
use crate::meaning::put_quantity;
use bcs_display_refusal::put_name;
use bcs_display_text::columns::put_decimal;
use bcs_explain::Reason;
use std::alloc::{AllocError, Global};

/// What is expected at the length of such a list: `2 arguments of 0x1::coin::transfer`.
pub(crate) fn expected_arguments(
    alloc: Global,
    function: &Function,
) -> Result<Vec<u8>, AllocError> {
    let mut expected = Vec::new(alloc);
    put_quantity(
        function.count,
        " argument of ",
        " arguments of ",
        &mut expected,
    )?;
    put_name(function.name.as_str(), &mut expected)?;
    Ok(expected)
}

/// The stop at the length of a list with `count` elements.
pub(crate) fn wrong_count(
    alloc: Global,
    function: &Function,
    count: u32,
    place: u64,
    halt: &Halt,
) -> Result<InnerStop, AllocError> {
    let mut message = Vec::from_slice(alloc, b"expected ")?;
    message.extend_from_slice(&halt.expected)?;
    message.extend_from_slice(b", found ")?;
    put_decimal(u128::from(count), &mut message)?;
    let reason = if u64::from(count) < function.count {
        Reason::EndOfInput
    } else {
        Reason::TrailingBytes
    };
    Ok(InnerStop {
        why: Why::Stop(reason),
        place,
        refusal: refusal_with(alloc, reason.name(), halt, message)?,
        past: u64::MAX,
    })
}
