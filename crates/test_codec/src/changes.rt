//! Checks bytes, all their prefixes, and all changes of one byte.
ghost use Rattle.std.specs.Prelude.{◌<◌, length};

use crate::question::Question;
use crate::verdicts::encoded_again;
use std::alloc::Global;
use test_rows::row_fault::RowFault;

/// Runs all calls on the bytes, on each prefix, and with each other byte value at each position. Returns the number of
/// inputs.
pub(crate) fn agreeing_changes(
    alloc: Global,
    question: &Question,
    bytes: &[u8],
) -> Result<u64, RowFault> {
    let mut count = 0;
    ask(alloc, question, bytes, &mut count)?;
    for place in 0..bytes.len() {
        ask(alloc, question, &bytes[..place], &mut count)?;
        ask_changed(alloc, question, bytes, place, &mut count)?;
    }
    Ok(count)
}

fn ask(alloc: Global, question: &Question, bytes: &[u8], count: &mut u64) -> Result<(), RowFault> {
    let _ = encoded_again(alloc, question, bytes)?;
    *count = count.saturating_add(1);
    Ok(())
}

fn ask_changed(
    alloc: Global,
    question: &Question,
    bytes: &[u8],
    place: usize,
    count: &mut u64,
) -> Result<(), RowFault>
    requires { place < length bytes.now }
{
    for step in 1..=255 {
        let mut changed = Vec::from_slice(alloc, bytes)?;
        changed[place] = changed[place].wrapping_add(step);
        ask(alloc, question, changed.as_slice(), count)?;
    }
    Ok(())
}
