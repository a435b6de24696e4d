//! Finds the least examples of containers in rounds.

use crate::least_examples::LeastExamples;
use crate::needed::Entry;
use crate::node_counts::least_of_container;
use std::alloc::{AllocError, Global};

/// Finds the least examples that open at most `depth` containers at once. Round N uses only containers found in earlier
/// rounds, so what it finds opens exactly N containers inside itself. If a round finds none, no later one will.
pub(crate) fn find_least_examples<'r>(
    alloc: Global,
    containers: Vec<Entry<'r>>,
    depth: u32,
) -> Result<LeastExamples<'r>, AllocError> {
    let mut least_examples = LeastExamples::new(alloc);
    let mut waiting = containers;
    for round in 0..depth {
        let left = run_round(alloc, &waiting, round, &mut least_examples)?;
        if left.len() == waiting.len() {
            break;
        }
        waiting = left;
    }
    Ok(least_examples)
}

/// Finds the containers for which the earlier rounds suffice, and returns the others.
fn run_round<'r>(
    alloc: Global,
    waiting: &[Entry<'r>],
    round: u32,
    least_examples: &mut LeastExamples<'r>,
) -> Result<Vec<Entry<'r>>, AllocError> {
    let mut left = Vec::new(alloc);
    for entry in waiting {
        match least_of_container(entry.container, least_examples, round) {
            Some(least) => least_examples.put(entry.name, least)?,
            None => left.push(*entry)?,
        }
    }
    Ok(left)
}
