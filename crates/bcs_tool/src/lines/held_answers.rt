//! Answers that aren't written yet.
ghost use Rattle.std.specs.Prelude.{◌≡◌, ◌≤◌, ◌<◌, ◌++◌, ◌∷◌, [], IfErr, IfOk, OnErr, OnOk, length};
ghost use Rattle.bcs_io.specs.Taking.{Took};
ghost use Rattle.bcs_tool.specs.HeldAnswers.{IsPartOf, whole};

use crate::jobs::interruption::Interruption;
use crate::jobs::run_fault::RunFault;
use bcs_io::{ByteSink, put_all};
use std::alloc::{AllocError, Global};

// From this number of bytes on, the answers are written.
const BLOCK: usize = 65536;

/// The answers to some lines, which are written in one call.
#[derive(Drop)]
pub struct HeldAnswers {
    bytes: Vec<u8>,
    // The number of bytes of each answer.
    lengths: Vec<usize>,
}

impl HeldAnswers {
    /// No answer yet.
    pub fn new(alloc: Global) -> HeldAnswers
        ensures bytes { result.bytes.items ≡ [] }
        ensures lengths { result.lengths.items ≡ [] }
    {
        HeldAnswers {
            bytes: Vec::new(alloc),
            lengths: Vec::new(alloc),
        }
    }

    /// Whether the answers are to be written before the next one.
    pub fn is_full(&self) -> bool {
        self.bytes.len() >= BLOCK
    }

    /// Adds an answer. The first one isn't copied.
    pub fn hold(&mut self, answer: Vec<u8>) -> Result<(), AllocError>
        ensures bytes { OnOk result (self.new.bytes.items ≡ self.old.bytes.items ++ answer.items) }
        ensures lengths { OnOk result (self.new.lengths.items ≡ self.old.lengths.items ++ length answer.items ∷ []) }
        ensures same_bytes { OnErr result (self.new.bytes.items ≡ self.old.bytes.items) }
        ensures same_lengths { OnErr result (self.new.lengths.items ≡ self.old.lengths.items) }
    {
        self.lengths.push(answer.len())?;
        if self.bytes.is_empty() {
            self.bytes = answer;
            return Ok(());
        }
        if self.bytes.extend_from_slice(answer.as_slice()).is_err() {
            self.lengths.pop();
            return Err(AllocError);
        }
        Ok(())
    }

    /// Writes the answers, the last of this number of answers in all. If that fails, it returns the number of those that were
    /// written as a whole, with all earlier ones.
    pub fn write_to<K: ByteSink>(&self, answered: u64, out: &mut K) -> Result<(), Interruption>
        requires among { length self.now.lengths.items ≤ answered }
        ensures all { IfOk result (λ _. Took K.taken K.is_failed out.old out.new self.now.bytes.items) }
        ensures part { IfErr result (IsPartOf K.taken K.is_failed answered self.now out.old out.new) }
    {
        match put_all(self.bytes.as_slice(), out) {
            Ok(()) => Ok(()),
            Err(accepted) => {
                let lost = self.lengths.len() as u64 - whole(self.lengths.as_slice(), accepted);
                Err(Interruption {
                    fault: RunFault::Write,
                    answered: answered - lost,
                })
            }
        }
    }
}

// The number of whole answers with these lengths among the bytes that were accepted.
fn whole(lengths: &[usize], accepted: u64) -> u64
    ensures { result ≡ whole lengths.now accepted }
{
    let mut left = accepted;
    let mut count = 0;
    for size in lengths {
        let size = *size as u64;
        if left < size {
            return count;
        }
        left -= size;
        count += 1;
    }
    count
}
