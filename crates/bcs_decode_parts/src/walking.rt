//! Follows the steps of a path.
ghost use Rattle.std.specs.Prelude.{List, ℕ, map, ◌≤◌, ◌≡◌, ◌++◌};
ghost use Rattle.bcs_registry_model.specs.Container.{of};
ghost use Rattle.bcs_registry_model.specs.View.{shape_of};
ghost use Rattle.bcs_value_model.specs.Tree.{Tree};
ghost use Rattle.bcs_decode_parts.specs.Fronts.{Fronts};
ghost use Rattle.bcs_decode_parts.specs.Parts.{part_at};
ghost use Rattle.bcs_decode_parts.specs.Steps.{GivesPart, step_of};

use crate::ahead::{Ahead, bytes_before};
use crate::here::{Here, Reached};
use crate::part::Part;
use crate::passing::after_reached;
use crate::step::Step;
use crate::stepping::take_step;
use bcs_registry::{Format, Registry};

/// Returns the part that `path` leads to in the value ahead, or `None` if there is none. If no valid value of the
/// format is ahead, the result isn't specified.
pub fn walk<'a>(
    registry: &Registry,
    format: &Format,
    ahead: &Ahead<'a>,
    path: &[Step],
) -> Option<Part<'a>>
    ensures { (t : Tree) (after : List ℕ) → Fronts registry.now ahead.now (of (shape_of format.now)) t after
        → GivesPart registry.now ahead.now.bytes.now (part_at registry.now (map step_of path.now) (of (shape_of format.now)) t) result }
{
    let mut at = Reached {
        here: Here::Value(format),
        ahead: *ahead,
    };
    for step in path {
        at = take_step(registry, &at, step)?;
    }
    let behind = after_reached(registry, &at)?;
    Some(Part {
        bytes: bytes_before(at.ahead.bytes, behind),
        place: bytes_before(ahead.bytes, at.ahead.bytes).len(),
    })
}
