//! One slot for each field of a struct, which its member fills. Members may come in any order.
ghost use Rattle.std.specs.Prelude.{◌≡◌, ◌<◌, ℕ, IfErr, IfOk, OnOk, Some, None, map, replicate, slice_get, slice_set, vec_len};
ghost use Rattle.bcs_json_spec.specs.declared.json_fault.JsonFault.TheVariants.{MissingField};
ghost use Rattle.bcs_json_passing.specs.Passing.{IfRefused, IfUnrefused, IsHere};
ghost use Rattle.bcs_json_tokens.specs.Slots.{first_empty as first_empty_slot};

use bcs_json_passing::given_up::GivenUp;
use bcs_json_spec::JsonFault;
use bcs_value_model::Value;
use std::alloc::Global;

/// `count` empty slots.
pub(crate) fn empty_slots(alloc: Global, count: usize) -> Result<Vec<Option<Value>>, GivenUp>
    ensures empty { IfOk result (λ slots. slots.items ≡ replicate count None) }
    ensures fault { IfUnrefused result }
{
    let mut slots = Vec::with_capacity(alloc, count)?;
    for _index in 0..count {
        slots.push(None)?;
    }
    Ok(slots)
}

/// Fills a slot, unless it is full already.
#[inline(always)]
pub(crate) fn fill(
    slots: &mut Vec<Option<Value>>,
    place: usize,
    value: Value,
) -> Result<(), GivenUp>
    requires { place < vec_len slots.old }
    ensures empty { OnOk result (slice_get slots.old.items place ≡ Some None) }
    ensures filled { OnOk result (slots.new.items ≡ slice_set slots.old.items place (Some value)) }
    ensures fault { IfUnrefused result }
{
    if slots[place].is_some() {
        return Err(GivenUp::Unusual);
    }
    slots[place] = Some(value);
    Ok(())
}

/// The values in the slots. `MissingField`: one is empty.
pub(crate) fn filled(alloc: Global, slots: Vec<Option<Value>>) -> Result<Vec<Value>, GivenUp>
    ensures all { IfOk result (λ found. map Some found.items ≡ slots.items) }
    ensures missing { IfErr result (IfRefused (λ e. IsHere MissingField e × (i : ℕ) × (slice_get slots.items i ≡ Some None))) }
{
    let mut found = Vec::with_capacity(alloc, slots.len())?;
    for slot in slots {
        match slot {
            Some(value) => found.push(value)?,
            None => return Err(GivenUp::here(alloc, JsonFault::MissingField)),
        }
    }
    Ok(found)
}

/// The index of the first empty slot, or the number of slots.
pub(crate) fn first_empty(slots: &[Option<Value>]) -> usize
    ensures { result ≡ first_empty_slot slots.now }
{
    let mut count = 0;
    for slot in slots {
        if slot.is_none() {
            return count;
        }
        count += 1;
    }
    count
}
