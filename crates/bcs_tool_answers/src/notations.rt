//! Checks PATH, names and pointers before there is a value to follow them in.
ghost use Rattle.std.specs.Prelude.{◌≡◌, Err, IfOk};
ghost use Rattle.bcs_decode_parts.specs.PathSteps.{all_spelled};
ghost use Rattle.bcs_tool_answers.specs.Notations.{SpellsNoSteps, SpellsSteps};

use bcs_decode_parts::{PathFault, PathStep, read_path};
use bcs_part_names::{is_pointer, read_name};
use bcs_tool_command_line::Notation;
use std::alloc::Global;

/// The steps of PATH. Names and pointers are only checked, and give no steps until there is a value to follow them in.
pub(crate) fn read_steps(
    alloc: Global,
    notation: Notation,
    word: &str,
) -> Result<Vec<PathStep>, PathFault>
    ensures ok { IfOk result (λ path. SpellsSteps notation word.now (all_spelled path.items)) }
    ensures bad { result ≡ Err PathFault.BadPath → SpellsNoSteps notation word.now }
{
    match notation {
        Notation::Path => read_path(alloc, word),
        Notation::Names => match read_name(alloc, word) {
            Ok(_) => Ok(Vec::new(alloc)),
            Err(fault) => Err(fault),
        },
        Notation::Pointer if is_pointer(word) => Ok(Vec::new(alloc)),
        Notation::Pointer => Err(PathFault::BadPath),
    }
}
