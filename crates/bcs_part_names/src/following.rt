//! Follows steps through a value, and collects them.
ghost use Rattle.std.specs.Prelude.{◌≡◌};
ghost use Rattle.bcs_registry_model.specs.Container.{of};
ghost use Rattle.bcs_registry_model.specs.View.{shape_of};
ghost use Rattle.bcs_decode_parts.specs.Here.{content_of};

use crate::led::{DeadEnd, Led};
use bcs_decode_parts::ahead::Ahead;
use bcs_decode_parts::here::{Here, Reached};
use bcs_decode_parts::inside::{Inside, inside_of};
use bcs_decode_parts::stepping::take_step;
use bcs_decode_parts::{PathStep, Step};
use bcs_registry::{Format, Registry};
use bcs_value::Limits;
use std::alloc::{AllocError, Global};

/// Where steps have led in a value, and the steps themselves. It follows them iteratively, from one position to the next,
/// so each byte of the value is skipped at most once or twice.
#[derive(Drop)]
pub(crate) struct Follower<'r, 'a> {
    registry: &'r Registry,
    at: Reached<'r, 'a>,
    path: Vec<PathStep>,
}

impl<'r, 'a> Follower<'r, 'a> {
    /// At the value at the start of `bytes`.
    pub(crate) fn start(
        alloc: Global,
        registry: &'r Registry,
        format: &'r Format,
        limits: &Limits,
        bytes: &'a [u8],
    ) -> Follower<'r, 'a> {
        Follower {
            registry,
            at: value_at_start(format, limits, bytes),
            path: Vec::new(alloc),
        }
    }

    /// Where the steps have led.
    pub(crate) fn at(&self) -> &Reached<'r, 'a> {
        &self.at
    }

    /// What is inside of that.
    pub(crate) fn inside(&self) -> Inside<'r> {
        inside_of(&self.at.here)
    }

    pub(crate) fn registry(&self) -> &'r Registry {
        self.registry
    }

    /// Takes a step, and returns whether it leads anywhere.
    pub(crate) fn take(&mut self, step: PathStep) -> Result<bool, AllocError> {
        let Some(next) = take_step(self.registry, &self.at, &borrowed(&step)) else {
            return Ok(false);
        };
        self.at = next;
        self.path.push(step)?;
        Ok(true)
    }

    /// Enters containers until none is left to enter: names and pointers have no step into a container, only PATH has.
    pub(crate) fn enter_containers(&mut self) -> Result<(), AllocError> {
        // Each container lowers the number of those that may still open.
        for _ in 0..=self.at.ahead.depth {
            let Inside::Container(_) = self.inside() else {
                return Ok(());
            };
            self.take(PathStep::Inner)?;
        }
        Ok(())
    }

    /// To the part that the steps have led to.
    pub(crate) fn arrived(self) -> Led<'r, 'a> {
        Led {
            path: self.path,
            nowhere: None,
        }
    }

    /// Nowhere, since this step leads nowhere from here. Its index is from 0.
    pub(crate) fn stopped(
        self,
        index: usize,
        step: String,
        in_entry: bool,
    ) -> Result<Led<'r, 'a>, AllocError> {
        let Follower { at, mut path, .. } = self;
        // No value has an element with this index: lengths and sizes are below 2^64.
        path.push(PathStep::Item(u64::MAX))?;
        Ok(Led {
            path,
            nowhere: Some(DeadEnd {
                number: (index as u64).saturating_add(1),
                step,
                at,
                in_entry,
            }),
        })
    }
}

/// The value at the start of `bytes`, before any step.
pub fn value_at_start<'r, 'a>(
    format: &'r Format,
    limits: &Limits,
    bytes: &'a [u8],
) -> Reached<'r, 'a>
    ensures bytes { result.ahead.bytes.now ≡ bytes.now }
    ensures here { content_of result.here ≡ of (shape_of format.now) }
    ensures depth { result.ahead.depth ≡ limits.now.depth }
    ensures nodes { result.ahead.nodes ≡ limits.now.nodes }
{
    Reached {
        here: Here::Value(format),
        ahead: Ahead {
            bytes,
            depth: limits.depth(),
            nodes: limits.nodes(),
        },
    }
}

/// The same step, borrowing its key.
pub fn borrowed(step: &PathStep) -> Step<'_> {
    match step {
        PathStep::Item(number) => Step::Item(*number),
        PathStep::Inner => Step::Inner,
        PathStep::Key(bytes) => Step::Key(bytes.as_slice()),
    }
}
