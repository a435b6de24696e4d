//! Compares the functions of views with those that a value calls, before its pieces are printed: what names a function may
//! follow its arguments.
ghost use Rattle.std.specs.Prelude.{⊤};
ghost use Rattle.bcs_registry_model.specs.View.{shape_of};
ghost use Rattle.bcs_registry_model.specs.WellFormed.{Admits};

use crate::above::Above;
use crate::elements::has_byte_strings;
use crate::findings::Findings;
use crate::functions::Function;
use crate::refused_call::{CallFault, RefusedList};
use crate::steps::put_field_path;
use crate::stopping::stop_of;
use crate::walk::Scene;
use crate::watch::Watch;
use bcs_explain::{Counted, Expected, Listener, Meaning, Trail};
use bcs_registry::{Format, Registry};
use bcs_value::Limits;
use std::alloc::{AllocError, Global};
use std::collections::BTreeMap;

/// What was found out about the calls in a value.
#[derive(Drop)]
pub(crate) struct Checked {
    /// The first list that is refused.
    pub refused: Option<RefusedList>,
    /// The functions that are called, by the places of the lists, where the views name none.
    pub functions: BTreeMap<u64, Function>,
    pub findings: Findings,
}

impl Checked {
    /// The list at this place is refused.
    pub(crate) fn refuse(&mut self, place: u64, fault: CallFault, expected: Vec<u8>) {
        let is_later = matches!(&self.refused, Some(first) if first.place <= place);
        if !is_later {
            self.refused = Some(RefusedList {
                place,
                fault,
                expected,
            });
        }
    }
}

/// Compares the calls in the value with these bytes.
pub(crate) fn check_calls(
    alloc: Global,
    scene: Scene<'_>,
    above: &Above,
    format: &Format,
    limits: &Limits,
    bytes: &[u8],
) -> Result<Checked, AllocError>
    requires admitted { Admits scene.registry.now (shape_of format.now) }
{
    let checked = Checked {
        refused: None,
        functions: BTreeMap::new(alloc),
        findings: Findings::new(alloc, scene.views)?,
    };
    if scene.views.calls().is_empty() {
        return Ok(checked);
    }
    let mut watches = Vec::new(alloc);
    for view in scene.views.calls() {
        watches.push(Watch::new(scene.registry, view))?;
    }
    let mut check = CallCheck {
        alloc,
        scene,
        above,
        format,
        watches,
        checked,
        has_lost: false,
    };
    stop_of(scene.registry, format, limits, bytes, &mut check);
    check.finish()
}

/// A listener that reads the names of functions.
#[derive(Drop)]
struct CallCheck<'e> {
    alloc: Global,
    scene: Scene<'e>,
    above: &'e Above,
    format: &'e Format,
    watches: Vec<Watch<'e>>,
    checked: Checked,
    /// Whether an allocation failed.
    has_lost: bool,
}

impl CallCheck<'_> {
    fn finish(self) -> Result<Checked, AllocError> {
        let CallCheck {
            alloc,
            mut watches,
            mut checked,
            has_lost,
            ..
        } = self;
        for watch in watches.iter_mut() {
            watch.leave(alloc, &mut checked)?;
        }
        if has_lost {
            Err(AllocError)
        } else {
            Ok(checked)
        }
    }

    fn add(
        &mut self,
        place: u64,
        bytes: &[u8],
        trail: &Trail<'_, '_, '_>,
        meaning: Meaning<'_>,
    ) -> Result<(), AllocError> {
        let mut name = Vec::new(self.alloc);
        put_field_path(self.above, trail, &mut name)?;
        for watch in self.watches.iter_mut() {
            watch.hear(self.alloc, &name, meaning, bytes, &mut self.checked)?;
        }
        match meaning {
            Meaning::Length(Counted::List | Counted::Octets, _) => self.add_list(
                place, trail, &name,
            ),
            _ => Ok(()),
        }
    }

    // A list, which may have the arguments of a function.
    fn add_list(
        &mut self,
        place: u64,
        trail: &Trail<'_, '_, '_>,
        name: &[u8],
    ) -> Result<(), AllocError> {
        let Some(call) = self.scene.views.call_at(name) else {
            return Ok(());
        };
        let place = self.above.place(place);
        if !has_byte_strings(self.alloc, self.scene.registry, self.format, trail)? {
            let expected = Vec::from_slice(self.alloc, b"a list of byte strings")?;
            self.checked.refuse(place, CallFault::BadPath, expected);
            return Ok(());
        }
        for watch in self.watches.iter_mut() {
            if watch.source() == call.source {
                watch.found(place, &mut self.checked);
            }
        }
        Ok(())
    }
}

impl Listener for CallCheck<'_> {
    ghost heard = { λ _ _ _. ⊤ };

    fn hear(
        &mut self,
        place: u64,
        bytes: &[u8],
        trail: &Trail<'_, '_, '_>,
        meaning: Meaning<'_>,
        _: u32,
    ) {
        if self.has_lost || matches!(meaning, Meaning::Unsigned(_)) {
            return;
        }
        if let Err(AllocError) = self.add(place, bytes, trail, meaning) {
            self.has_lost = true;
        }
    }

    fn halt(&mut self, _: &Trail<'_, '_, '_>, _: Expected<'_>) {}
}
