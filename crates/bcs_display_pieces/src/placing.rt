//! Where bytes stop being a value.
ghost use Rattle.std.specs.Prelude.{◌≡◌, ⊤, IfOk, IfSome, None, Some};
ghost use Rattle.bcs_registry_model.specs.View.{shape_of};
ghost use Rattle.bcs_registry_model.specs.WellFormed.{Admits};
ghost use Rattle.bcs_decode_spec.specs.declared.stop.Stop as declared;
ghost use Rattle.bcs_display_pieces.specs.EndsAt.{EndsAt};

use crate::above::Above;
use crate::ending::refusal_at;
use crate::found::Found;
use crate::halt::Halt;
use crate::stopping::stop_of;
use bcs_display_refusal::Refusal;
use bcs_explain::{Expected, Listener, Meaning, Stop, Trail};
use bcs_registry::{Format, Registry};
use bcs_value::Limits;
use std::alloc::{AllocError, Global};

/// A stop, and the refusal of the bytes for it. The location is a field path.
#[derive(Debug, Drop)]
pub struct Stopped {
    pub stop: Stop,
    pub refusal: Refusal,
}

/// Where the bytes stop being a value, with what was expected there; for an unknown variant also the number that was found and
/// the variants that exist. `Refusal::line` describes it in ASCII, without a line end: `at .owner: BadBool: expected BOOL, 00 or
/// 01, found 02`. Returns `None` if they encode a value. Fails only if memory runs out.
pub fn stop_refusal(
    alloc: Global,
    registry: &Registry,
    format: &Format,
    limits: &Limits,
    bytes: &[u8],
) -> Result<Option<Stopped>, AllocError>
    requires admitted { Admits registry.now (shape_of format.now) }
    ensures none { IfOk result (λ x. x ≡ None → EndsAt registry.now limits.now (shape_of format.now) bytes.now None) }
    ensures some { IfOk result (λ x. IfSome x (λ stopped. EndsAt registry.now limits.now (shape_of format.now) bytes.now (Some stopped.stop))) }
{
    let above = Above::input(alloc);
    let mut keeper = StopKeeper {
        alloc,
        halt: Halt::at_end(alloc, &above)?,
        above,
        has_lost: false,
    };
    let Some(stop) = stop_of(registry, format, limits, bytes, &mut keeper) else {
        return Ok(None);
    };
    if keeper.has_lost {
        return Err(AllocError);
    }
    let found = Found::InInput(bytes.get(stop.place as usize..).unwrap_or(b""));
    let refusal = refusal_at(alloc, registry, stop.reason, &keeper.halt, found)?;
    Ok(Some(Stopped { stop, refusal }))
}

/// A listener that stores where the bytes stop.
#[derive(Drop)]
struct StopKeeper {
    alloc: Global,
    above: Above,
    halt: Halt,
    /// Whether an allocation failed.
    has_lost: bool,
}

impl Listener for StopKeeper {
    ghost heard = { λ _ _ _. ⊤ };

    fn hear(&mut self, _: u64, _: &[u8], _: &Trail<'_, '_, '_>, _: Meaning<'_>, _: u32) {}

    fn halt(&mut self, trail: &Trail<'_, '_, '_>, expected: Expected<'_>) {
        match Halt::at(self.alloc, &self.above, trail, expected) {
            Ok(halt) => self.halt = halt,
            Err(AllocError) => self.has_lost = true,
        }
    }
}
