//! The node budget of an example.
ghost use Rattle.std.specs.Prelude.{◌≡◌, ◌+◌, ◌≤◌, OnOk};

use crate::fault::ExampleOptionsFault;

/// Subtracts `count` nodes from the budget. Fails if fewer are left.
pub(crate) fn spend(count: u64, left: &mut u32) -> Result<(), ExampleOptionsFault>
    ensures spent { OnOk result (left.old ≡ left.new + count) }
    ensures fewer { left.new ≤ left.old }
{
    match u64::from(*left).checked_sub(count) {
        Some(rest) => {
            *left = rest as u32;
            Ok(())
        }
        None => Err(ExampleOptionsFault::TooManyNodes),
    }
}

/// Charges the remaining copies of an element, after its first copy has been charged. One copy costs `before - left`.
pub(crate) fn spend_copies(
    before: u32,
    copies: u64,
    left: &mut u32,
) -> Result<(), ExampleOptionsFault>
    ensures fewer { left.new ≤ left.old }
{
    let each = u64::from(before.saturating_sub(*left));
    match each.checked_mul(copies.saturating_sub(1)) {
        Some(others) => spend(others, left),
        None => Err(ExampleOptionsFault::TooManyNodes),
    }
}
