//! Copies values.
ghost use Rattle.std.specs.Prelude.{◌≡◌, IfOk, OnOk, string_bytes};
ghost use Rattle.bcs_value_model.specs.Tree.{bytes as bytes_tree, items as items_tree, pairs as pairs_tree, text as text_tree};
ghost use Rattle.bcs_value_model.specs.View.{entries_pairs, items_trees, tree_of};

use crate::slot::{keep, keep_entry, put_items, put_pairs, wrap_named, wrap_present, wrap_variant};
use crate::value::Value;
use std::alloc::{AllocError, Global};

impl Value {
    /// Returns an equal value. Each list and map is allocated once, at its full length.
    pub fn copy(&self, alloc: Global) -> Result<Value, AllocError>
        ensures { IfOk result (λ v. tree_of v ≡ tree_of self.now) }
    {
        let mut slot = Value::Unit;
        copy_to(self, &mut slot, alloc)?;
        Ok(slot)
    }
}

// The copy is built in the caller's slot, which keeps stack frames small for deep values.
#[cycle(copy)]
fn copy_to(value: &Value, slot: &mut Value, alloc: Global) -> Result<(), AllocError>
    ensures { OnOk result (tree_of slot.new ≡ tree_of value.now) }
{
    match value {
        Value::Present(inner) => {
            copy_to(inner, slot, alloc)?;
            wrap_present(alloc, slot)
        }
        Value::Named(inner) => {
            copy_to(inner, slot, alloc)?;
            wrap_named(alloc, slot)
        }
        Value::Variant(number, inner) => {
            copy_to(inner, slot, alloc)?;
            wrap_variant(alloc, *number, slot)
        }
        Value::Items(items) => copy_items(items, slot, alloc),
        Value::Pairs(pairs) => copy_pairs(pairs, slot, alloc),
        Value::Text(text) => copy_text(text, slot),
        Value::Bytes(bytes) => copy_bytes(bytes, slot),
        Value::Unit => put(Value::Unit, slot),
        Value::Bool(truth) => put(Value::Bool(*truth), slot),
        Value::Unsigned(number) => put(Value::Unsigned(*number), slot),
        Value::Signed(number) => put(Value::Signed(*number), slot),
        Value::Absent => put(Value::Absent, slot),
    }
}

#[cycle(copy)]
fn copy_items(items: &[Value], slot: &mut Value, alloc: Global) -> Result<(), AllocError>
    ensures { OnOk result (tree_of slot.new ≡ items_tree (items_trees items.now)) }
{
    let mut copies = Vec::with_capacity(alloc, items.len())?;
    for item in items {
        copy_to(item, slot, alloc)?;
        keep(&mut copies, slot)?;
    }
    put_items(slot, copies);
    Ok(())
}

#[cycle(copy)]
fn copy_pairs(pairs: &[(Value, Value)], slot: &mut Value, alloc: Global) -> Result<(), AllocError>
    ensures { OnOk result (tree_of slot.new ≡ pairs_tree (entries_pairs pairs.now)) }
{
    let mut copies = Vec::with_capacity(alloc, pairs.len())?;
    for (key, value) in pairs {
        let mut copied = Value::Unit;
        copy_to(key, &mut copied, alloc)?;
        copy_to(value, slot, alloc)?;
        keep_entry(&mut copies, &mut copied, slot)?;
    }
    put_pairs(slot, copies);
    Ok(())
}

#[inline(never)]
fn put(value: Value, slot: &mut Value) -> Result<(), AllocError>
    ensures { OnOk result (slot.new ≡ value) }
{
    *slot = value;
    Ok(())
}

#[inline(never)]
fn copy_text(text: &String, slot: &mut Value) -> Result<(), AllocError>
    ensures { OnOk result (tree_of slot.new ≡ text_tree (string_bytes text.now)) }
{
    *slot = Value::Text(text.clone()?);
    Ok(())
}

#[inline(never)]
fn copy_bytes(bytes: &Vec<u8>, slot: &mut Value) -> Result<(), AllocError>
    ensures { OnOk result (tree_of slot.new ≡ bytes_tree bytes.now.items) }
{
    *slot = Value::Bytes(bytes.clone()?);
    Ok(())
}
