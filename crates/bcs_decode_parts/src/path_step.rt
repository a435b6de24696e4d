//! The steps of a path that was read from an argument.
ghost use Rattle.std.specs.Prelude.{◌≡◌, IfOk, map};
ghost use Rattle.bcs_decode_parts.specs.Steps.{step_of};
ghost use Rattle.bcs_decode_parts.specs.PathSteps.{all_spelled, spelled};

use crate::Step;
use std::alloc::{AllocError, Global};

/// A step of a path. It owns the bytes of its key.
#[derive(Debug, Drop)]
pub enum PathStep {
    /// To the element with this index, from 0.
    Item(u64),
    /// Into an option, a variant or a container.
    Inner,
    /// To the value of a map whose encoded key is these bytes.
    Key(Vec<u8>),
}

impl PathStep {
    // The same step, borrowing the key.
    fn step(&self) -> Step<'_>
        ensures { step_of result ≡ spelled self.now }
    {
        match self {
            PathStep::Item(number) => Step::Item(*number),
            PathStep::Inner => Step::Inner,
            PathStep::Key(bytes) => Step::Key(bytes.as_slice()),
        }
    }
}

/// The same steps, borrowing their keys from `path`.
pub fn steps_of(alloc: Global, path: &[PathStep]) -> Result<Vec<Step<'_>>, AllocError>
    ensures { IfOk result (λ steps. map step_of steps.items ≡ all_spelled path.now) }
{
    let mut steps = Vec::with_capacity(alloc, path.len())?;
    for step in path {
        steps.push(step.step())?;
    }
    Ok(steps)
}
