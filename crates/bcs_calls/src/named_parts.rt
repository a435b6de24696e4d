//! Parts of values by names, for C.
ghost use Rattle.std.specs.Prelude.{◌≡◌, ℕ, IfErr, IfOk, IfSome, map};
ghost use Rattle.std.specs.declared.option.Option.TheVariants.{None};
ghost use Rattle.bcs_value_model.specs.Tree.{Tree};
ghost use Rattle.bcs_decode_spec.specs.Accepting.{Accepts};
ghost use Rattle.bcs_decode_parts.specs.Steps.{step_of};
ghost use Rattle.bcs_calls.specs.Asking.{On};
ghost use Rattle.bcs_calls.specs.NamedParts.{AnswersNamed, MayName, RefusesName};
ghost use Rattle.bcs_calls.specs.Parts.{AnswersSteps};

use crate::answer::Answer;
use crate::asked::Asked;
use crate::fault::Fault;
use crate::status::Status;
use bcs_decode::{Step, scan};
use bcs_decode_parts::{PathFault, PathStep, steps_of};
use bcs_part_names::{Led, is_pointer, part_of_scanned, path_of_name, path_of_pointer, read_name};
use std::alloc::{AllocError, Global};
use std::str::from_utf8;

/// The name of a part, in one of its notations.
#[derive(Clone, Copy)]
enum PartName<'a> {
    /// As `explain` prints it: `.payload::EntryFunction.args[0]`.
    Name(&'a str),
    /// A JSON Pointer into the value's JSON: `/payload/EntryFunction/args/0`.
    Pointer(&'a str),
}

/// Finds the part that the name leads to, within the value at the start of the input.
pub(crate) fn named_place(
    alloc: Global,
    asked: &Asked,
    notation: u32,
    name: &[u8],
    bytes: &[u8],
) -> Answer
    ensures { On asked.now (λ r l s. AnswersNamed r l s bytes.now notation name.now result) }
{
    let path = match led_path(alloc, asked, notation, name, bytes) {
        Ok(path) => path,
        Err(answer) => return answer,
    };
    match steps_of(alloc, path.as_slice()) {
        Ok(steps) => scanned_place(asked, bytes, steps.as_slice()),
        Err(AllocError) => Answer::plain(Status::Memory),
    }
}

/// The steps that the name leads along, if the input starts with a value.
pub(crate) fn led_path(
    alloc: Global,
    asked: &Asked,
    notation: u32,
    name: &[u8],
    bytes: &[u8],
) -> Result<Vec<PathStep>, Answer>
    ensures named { IfOk result (λ path. MayName notation name.now) }
    ensures valid { IfOk result (λ path. On asked.now (λ r l s. (n : ℕ) × (c : Tree) × Accepts r l s bytes.now n c)) }
    ensures err { IfErr result (λ a. On asked.now (λ r l s. RefusesName r l s bytes.now notation name.now a)) }
{
    let part_name = match name_in(alloc, notation, name) {
        Ok(Some(part_name)) => part_name,
        Ok(None) => return Err(Answer::refusal(Status::Path, Fault::BadPath)),
        Err(AllocError) => return Err(Answer::plain(Status::Memory)),
    };
    // In bytes that aren't a value, a map may claim billions of entries, and a name would be followed through all of them.
    match scan(asked.registry, asked.format, &asked.limits, bytes) {
        Ok(_) => {}
        Err(stop) => return Err(Answer::stopped(stop)),
    }
    match follow(alloc, asked, part_name, bytes) {
        Ok(led) => Ok(led.path),
        Err(AllocError) => Err(Answer::plain(Status::Memory)),
    }
}

/// Finds the part that the steps lead to, within the value at the start of the input, which has been scanned.
fn scanned_place(asked: &Asked, bytes: &[u8], steps: &[Step]) -> Answer
    requires { On asked.now (λ r l s. (n : ℕ) × (c : Tree) × Accepts r l s bytes.now n c) }
    ensures { On asked.now (λ r l s. AnswersSteps r l s bytes.now (map step_of steps.now) result) }
{
    match part_of_scanned(asked.registry, asked.format, &asked.limits, bytes, steps) {
        Some(found) => Answer::placed(found.place, found.bytes.len()),
        None => Answer::plain(Status::No),
    }
}

/// The name in the notation with this number, if it is valid there.
fn name_in(alloc: Global, notation: u32, name: &[u8]) -> Result<Option<PartName<'_>>, AllocError>
    ensures some { IfOk result (λ o. IfSome o (λ part_name. MayName notation name.now)) }
    ensures none { IfOk result (λ o. o ≡ None → MayName notation name.now → ⊥) }
{
    let Ok(text) = from_utf8(name) else {
        return Ok(None);
    };
    match notation {
        1 => match read_name(alloc, text) {
            Ok(_) => Ok(Some(PartName::Name(text))),
            Err(PathFault::BadPath) => Ok(None),
            Err(PathFault::OutOfMemory) => Err(AllocError),
        },
        2 if is_pointer(text) => Ok(Some(PartName::Pointer(text))),
        _ => Ok(None),
    }
}

/// Where the name leads.
fn follow<'a, 'b>(
    alloc: Global,
    asked: &Asked<'a>,
    part_name: PartName<'_>,
    bytes: &'b [u8],
) -> Result<Led<'a, 'b>, AllocError> {
    let Asked {
        registry,
        format,
        limits,
        ..
    } = asked;
    match part_name {
        PartName::Name(text) => path_of_name(alloc, registry, format, limits, bytes, text),
        PartName::Pointer(text) => path_of_pointer(alloc, registry, format, limits, bytes, text),
    }
}
