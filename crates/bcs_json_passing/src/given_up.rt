//! Why the reader gave up.
ghost use Rattle.std.specs.Prelude.{◌≡◌};
ghost use Rattle.bcs_json_passing.specs.Passing.{IfRefused, IsHere};

use bcs_json_reader::refusal::Refusal;
use bcs_json_spec::JsonFault;
use std::alloc::{AllocError, AllocFailed, Global};

/// Why the reader returned no value.
#[derive(Drop)]
pub enum GivenUp {
    /// The JSON contains something that only the other reader supports. This doesn't mean that it is invalid.
    Unusual,
    /// An allocation failed.
    OutOfMemory,
    /// The JSON is refused, and the reader has passed all of it. The box keeps results small.
    Refused(Box<Refusal>),
}

impl GivenUp {
    /// The JSON itself is refused.
    #[inline(never)]
    pub fn here(alloc: Global, fault: JsonFault) -> GivenUp
        ensures { IfRefused (IsHere fault) result }
    {
        GivenUp::of(alloc, Refusal::from(fault))
    }

    /// `OutOfMemory`, if there is no memory for the refusal.
    pub fn of(alloc: Global, refusal: Refusal) -> GivenUp
        ensures { IfRefused (λ e. e ≡ refusal) result }
    {
        match Box::new(alloc, refusal) {
            Ok(refusal) => GivenUp::Refused(refusal),
            Err(_) => GivenUp::OutOfMemory,
        }
    }
}

impl From<AllocError> for GivenUp {
    ghost use Rattle.std.specs.Prelude.{◌≡◌};
    ghost use Rattle.bcs_json_passing.specs.declared.given_up.GivenUp.TheVariants.{OutOfMemory};

    ghost from_gives = { λ _ e. e ≡ OutOfMemory };

    fn from(_: AllocError) -> Self {
        GivenUp::OutOfMemory
    }
}

impl<T: Drop> From<AllocFailed<T>> for GivenUp {
    ghost use Rattle.std.specs.Prelude.{◌≡◌};
    ghost use Rattle.bcs_json_passing.specs.declared.given_up.GivenUp.TheVariants.{OutOfMemory};

    ghost from_gives = { λ _ e. e ≡ OutOfMemory };

    fn from(_: AllocFailed<T>) -> Self {
        GivenUp::OutOfMemory
    }
}
