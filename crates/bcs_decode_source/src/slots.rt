//! Fills slots and drops what isn't needed. Separate functions outside the recursion, to keep its stack frames small.
ghost use Rattle.std.specs.Prelude.{◌≡◌, IfOk};
ghost use Rattle.bcs_value_model.specs.Tree.{absent, items};
ghost use Rattle.bcs_value_model.specs.View.{tree_of, items_trees};

use bcs_decode_spec::DecodeFault;
use bcs_value_model::Value;
use bcs_value_model::slot::put_items;

/// Puts an empty option into the slot.
#[inline(never)]
#[tactic(auto, using(crate::proofs::ValueViews::tree_absent))]
pub fn put_absent(slot: &mut Value)
    ensures { tree_of slot.new ≡ absent }
{
    *slot = Value::Absent;
}

/// Drops what was read before a fault.
#[inline(never)]
pub fn discard<T: Drop>(found: T) {
    drop(found);
}

/// Puts the list into the slot, or drops it if reading failed. Returns `read`.
#[inline(never)]
pub fn finish(
    read: Result<(), DecodeFault>,
    found: Vec<Value>,
    slot: &mut Value,
) -> Result<(), DecodeFault>
    ensures same { result ≡ read }
    ensures put { IfOk read (λ _. tree_of slot.new ≡ items (items_trees found.items)) }
{
    match read {
        Ok(()) => {
            put_items(slot, found);
            Ok(())
        }
        Err(fault) => Err(fault),
    }
}
