//! Slots. Recursive functions build a value in a slot that the caller provides, instead of returning it through each
//! call. The helpers here are never inlined. Both keep stack frames small for deep values.
ghost use Rattle.std.specs.Prelude.{◌≡◌, ◌∷◌, ◌++◌, [], OnErr, OnOk};
ghost use Rattle.bcs_value_model.specs.Tree.{items, named, pairs, present, unit, variant};
ghost use Rattle.bcs_value_model.specs.View.{entries_pairs, items_trees, tree_of};

use crate::value::Value;
use std::alloc::{AllocError, Global};
use std::mem;

/// Wraps the value in the slot in an option. Fails only if memory runs out; the slot then holds `Unit`.
#[inline(never)]
pub fn wrap_present(alloc: Global, slot: &mut Value) -> Result<(), AllocError>
    ensures wrapped { OnOk result (tree_of slot.new ≡ present (tree_of slot.old)) }
    ensures emptied { OnErr result (tree_of slot.new ≡ unit) }
{
    let part = mem::replace(slot, Value::Unit);
    *slot = Value::Present(Box::new(alloc, part)?);
    Ok(())
}

/// Wraps the value in the slot in a container. Fails only if memory runs out; the slot then holds `Unit`.
#[inline(never)]
pub fn wrap_named(alloc: Global, slot: &mut Value) -> Result<(), AllocError>
    ensures wrapped { OnOk result (tree_of slot.new ≡ named (tree_of slot.old)) }
    ensures emptied { OnErr result (tree_of slot.new ≡ unit) }
{
    let part = mem::replace(slot, Value::Unit);
    *slot = Value::Named(Box::new(alloc, part)?);
    Ok(())
}

/// Wraps the value in the slot in a variant. Fails only if memory runs out; the slot then holds `Unit`.
#[inline(never)]
pub fn wrap_variant(alloc: Global, number: u32, slot: &mut Value) -> Result<(), AllocError>
    ensures wrapped { OnOk result (tree_of slot.new ≡ variant number (tree_of slot.old)) }
    ensures emptied { OnErr result (tree_of slot.new ≡ unit) }
{
    let part = mem::replace(slot, Value::Unit);
    *slot = Value::Variant(number, Box::new(alloc, part)?);
    Ok(())
}

/// Puts a list of values into the slot.
#[inline(never)]
pub fn put_items(slot: &mut Value, found: Vec<Value>)
    ensures { tree_of slot.new ≡ items (items_trees found.items) }
{
    *slot = Value::Items(found);
}

/// Puts the entries of a map into the slot.
#[inline(never)]
pub fn put_pairs(slot: &mut Value, found: Vec<(Value, Value)>)
    ensures { tree_of slot.new ≡ pairs (entries_pairs found.items) }
{
    *slot = Value::Pairs(found);
}

/// Moves the value from the slot to the end of the list, and leaves `Unit` in the slot. Fails only if memory runs out;
/// the list is then unchanged.
#[inline(never)]
pub fn keep(found: &mut Vec<Value>, slot: &mut Value) -> Result<(), AllocError>
    ensures kept { OnOk result (found.new.items ≡ found.old.items ++ slot.old ∷ []) }
    ensures unchanged { OnErr result (found.new.items ≡ found.old.items) }
    ensures emptied { tree_of slot.new ≡ unit }
{
    let taken = mem::replace(slot, Value::Unit);
    found.push(taken)?;
    Ok(())
}

/// Moves an entry from two slots to the end of the entries, and leaves `Unit` in both. Fails only if memory runs out;
/// the entries are then unchanged.
#[inline(never)]
pub fn keep_entry(
    found: &mut Vec<(Value, Value)>,
    key: &mut Value,
    slot: &mut Value,
) -> Result<(), AllocError>
    ensures kept { OnOk result (found.new.items ≡ found.old.items ++ (key.old, slot.old) ∷ []) }
    ensures unchanged { OnErr result (found.new.items ≡ found.old.items) }
    ensures key_emptied { tree_of key.new ≡ unit }
    ensures emptied { tree_of slot.new ≡ unit }
{
    let held = mem::replace(key, Value::Unit);
    let taken = mem::replace(slot, Value::Unit);
    found.push((held, taken))?;
    Ok(())
}
