//! Reads PATH arguments.
ghost use Rattle.std.specs.Prelude.{◌≡◌, ◌<◌, ◌^◌, ℕ, List, Ok, Err, IfOk};
ghost use Rattle.std.specs.Fmt.{decimal};
ghost use Rattle.hex.specs.Hex.{decode_of};
ghost use Rattle.bcs_decode_parts.specs.Parts.{Step, item, key};
ghost use Rattle.bcs_decode_parts.specs.Path.{SpellsNoPath, SpellsPath, SpellsStep};
ghost use Rattle.bcs_decode_parts.specs.PathSteps.{all_spelled, spelled};

use crate::path_fault::PathFault;
use crate::path_step::PathStep;
use bcs_num::{Width, parse_unsigned};
use hex::FromHexError;
use std::alloc::Global;

/// Reads a PATH argument: `.` for the empty path, and otherwise steps, joined by `/`. A step is a plain decimal number
/// below 2^64, `inner`, or `key:` and the bytes of a key in hexadecimal, in either case. `BadPath`: the word is
/// anything else, for instance an empty word, an empty step, a number with a leading zero, or an odd number of digits.
pub fn read_path(alloc: Global, word: &str) -> Result<Vec<PathStep>, PathFault>
    ensures spelled { IfOk result (λ path. SpellsPath word.now (all_spelled path.items)) }
    ensures bad { result ≡ Err PathFault.BadPath → SpellsNoPath word.now }
{
    let mut path = Vec::new(alloc);
    if word == "." {
        return Ok(path);
    }
    for text in word.split('/') {
        path.push(read_step(alloc, text)?)?;
    }
    Ok(path)
}

// Reads one step.
fn read_step(alloc: Global, text: &str) -> Result<PathStep, PathFault>
    ensures spelled { IfOk result (λ s. SpellsStep text.now (spelled s)) }
    ensures bad { result ≡ Err PathFault.BadPath → (s : Step) → SpellsStep text.now s → ⊥ }
{
    if text == "inner" {
        return Ok(PathStep::Inner);
    }
    match text.strip_prefix("key:") {
        Some(digits) => read_key(alloc, digits),
        None => read_number(text),
    }
}

// The step to the key with these hexadecimal digits.
fn read_key(alloc: Global, digits: &str) -> Result<PathStep, PathFault>
    ensures spelled { IfOk result (λ s. (bytes : List ℕ) × (decode_of digits.now ≡ Ok bytes) × (spelled s ≡ key bytes)) }
    ensures bad { result ≡ Err PathFault.BadPath → (bytes : List ℕ) → decode_of digits.now ≡ Ok bytes → ⊥ }
{
    match hex::decode(alloc, digits) {
        Ok(bytes) => Ok(PathStep::Key(bytes)),
        Err(FromHexError::OutOfMemory) => Err(PathFault::OutOfMemory),
        Err(
            FromHexError::OddLength
            | FromHexError::InvalidHexCharacter { .. }
            | FromHexError::InvalidStringLength,
        ) => Err(PathFault::BadPath),
    }
}

// The step to an element.
fn read_number(text: &str) -> Result<PathStep, PathFault>
    ensures spelled { IfOk result (λ s. (n : ℕ) × (text.now ≡ decimal n) × (n < 2 ^ 64) × (spelled s ≡ item n)) }
    ensures bad { result ≡ Err PathFault.BadPath → (n : ℕ) → n < 2 ^ 64 → text.now ≡ decimal n → ⊥ }
{
    match parse_unsigned(Width::W8, text) {
        Some(number) => Ok(PathStep::Item(number as u64)),
        None => Err(PathFault::BadPath),
    }
}
