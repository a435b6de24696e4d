//! Parts of bytes that have been scanned.
ghost use Rattle.std.specs.Prelude.{ℕ, map};
ghost use Rattle.bcs_registry_model.specs.Container.{of};
ghost use Rattle.bcs_registry_model.specs.View.{shape_of};
ghost use Rattle.bcs_value_model.specs.Tree.{Tree};
ghost use Rattle.bcs_decode_spec.specs.Accepting.{Accepts};
ghost use Rattle.bcs_decode_parts.specs.Parts.{part_at};
ghost use Rattle.bcs_decode_parts.specs.Steps.{GivesPart, step_of};

use crate::following::value_at_start;
use bcs_decode_parts::walking::walk;
use bcs_decode_parts::{Part, Step};
use bcs_registry::{Format, Registry};
use bcs_value::Limits;

/// Returns the part that the steps lead to, or `None` if they lead nowhere. The bytes begin with a value: unlike `part` of
/// `bcs_decode`, this function doesn't scan them.
pub fn part_of_scanned<'a>(
    registry: &Registry,
    format: &Format,
    limits: &Limits,
    bytes: &'a [u8],
    path: &[Step],
) -> Option<Part<'a>>
    ensures { (n : ℕ) (c : Tree) → Accepts registry.now limits.now (shape_of format.now) bytes.now n c
        → GivesPart registry.now bytes.now (part_at registry.now (map step_of path.now) (of (shape_of format.now)) c) result }
{
    let start = value_at_start(format, limits, bytes);
    walk(registry, format, &start.ahead, path)
}
