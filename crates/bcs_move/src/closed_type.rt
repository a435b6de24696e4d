//! Types without parameters.

use crate::budget::Budget;
use bcs_move_types::move_type::MoveType;
use bcs_move_types::place::Place;
use bcs_move_types::printing::closed_text;
use bcs_move_types::refusal::MoveFault;
use bcs_move_types::type_text::type_of_text;
use std::alloc::Global;

/// The type with the texts in `arguments` in place of its parameters. It may nest at most 32 deep and have 4,000
/// characters.
pub(crate) fn closed_type(
    alloc: Global,
    kind: &MoveType,
    arguments: &[String],
    place: &Place<'_>,
    budget: &mut Budget,
) -> Result<MoveType, MoveFault> {
    let text = closed_text(alloc, kind, arguments, place)?;
    budget.pay(alloc, text.len(), place)?;
    type_of_text(alloc, text.as_str(), place)
}
