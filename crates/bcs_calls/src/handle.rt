//! The handle.
ghost use Rattle.std.specs.Prelude.{◌≡◌, ◌≢◌, IfErr, IfOk, option_map};
ghost use Rattle.std.specs.declared.option.Option.{Option};
ghost use Rattle.std.specs.declared.option.Option.TheVariants.{None, Some};
ghost use Rattle.bcs_registry_model.specs.Container.{Entries};
ghost use Rattle.bcs_registry_model.specs.Ranges.{IsOrderly};
ghost use Rattle.bcs_registry_model.specs.WellFormed.{IsWellFormed};
ghost use Rattle.bcs_registry.specs.Faults.{IsLeastFault};
ghost use Rattle.bcs_registry_json.specs.Text.{WritesRegistry};
ghost use Rattle.bcs_calls.specs.Holding.{entries_coded, holds};

use crate::open_registry::{OpenRegistry, open_registry};
use crate::raw_box::RawBox;
use bcs_registry::RegistryFault;
use std::alloc::Global;
use std::marker::Model;
use std::mem::replace;
use std::ptr::null_mut;

/// A variable of C that stores a registry between calls. It is one pointer, which is null if no registry is open.
/// Contracts call the open registry `registry`.
#[repr(C)]
pub struct Handle {
    pointer: *mut u8,
    alloc: Global,
    pub ghost registry: { Option Entries } by { entries_coded },
}

impl Model for Handle {
    ghost also_owns = { λ handle. holds handle.alloc handle.pointer handle.registry };
}

impl Handle {
    /// A handle without a registry.
    pub fn closed(alloc: Global) -> Handle
        ensures { result.registry ≡ None }
    {
        Handle {
            pointer: null_mut(),
            alloc,
        }
    }

    /// Parses a registry and stores it, replacing the one that was open. After a refusal the handle is unchanged.
    pub fn open(&mut self, alloc: Global, text: &[u8]) -> Result<(), RegistryFault>
        ensures opened { IfOk result (λ _. (r : Entries) × (self.new.registry ≡ Some r)
            × WritesRegistry text.now r × IsWellFormed r × IsOrderly r) }
        ensures fault { IfErr result (λ e. e ≢ RegistryFault.OutOfMemory → IsLeastFault text.now e) }
        ensures kept { IfErr result (λ _. self.new ≡ self.old) }
    {
        let opened = open_registry(alloc, text)?;
        self.put(opened);
        Ok(())
    }

    /// Closes the registry and frees its memory. Does nothing if none is open.
    pub fn close(&mut self, alloc: Global)
        ensures { self.new.registry ≡ None }
    {
        *self = Handle::closed(alloc);
    }

    /// Takes the registry out, for a call that uses it and puts it back.
    pub(crate) fn take(&mut self, alloc: Global) -> Option<Box<OpenRegistry>>
        ensures taken { option_map (λ b. b.value) result ≡ self.old.registry }
        ensures closed { self.new.registry ≡ None }
    {
        replace(self, Handle::closed(alloc)).into_box()
    }

    /// Stores a registry, replacing the one that was open.
    pub(crate) fn put(&mut self, opened: Box<OpenRegistry>)
        ensures { self.new.registry ≡ Some opened.value }
    {
        *self = Handle::of_raw(RawBox::of(opened));
    }

    fn into_box(self) -> Option<Box<OpenRegistry>>
        ensures { option_map (λ b. b.value) result ≡ self.registry }
    {
        match self.into_raw() {
            Some(raw) => Some(raw.into_box()),
            None => None,
        }
    }

    fn of_raw(raw: RawBox<OpenRegistry, Global>) -> Handle
        ensures { result.registry ≡ Some raw.value }
    {
        let RawBox { pointer, alloc } = raw;
        Handle {
            pointer: pointer.cast::<u8>(),
            alloc,
        }
    }

    fn into_raw(self) -> Option<RawBox<OpenRegistry, Global>>
        ensures { option_map (λ raw. raw.value) result ≡ self.registry }
    {
        let Handle { pointer, alloc } = self;
        if pointer.is_null() {
            None
        } else {
            Some(RawBox {
                pointer: pointer.cast::<OpenRegistry>(),
                alloc,
            })
        }
    }
}

impl Drop for Handle {
    fn drop(self) {
        drop(self.into_box());
    }
}

/// C may pass it to another thread.
unsafe impl Send for Handle {}
