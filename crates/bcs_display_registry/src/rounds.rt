//! Computes the sizes of containers in rounds.

use crate::formulas::{Formula, Step, sizes_at};
use crate::sizes::Sizes;
use bcs_registry_model::Container;
use bcs_registry_model::containers::Containers;
use std::alloc::{AllocError, Global};
use std::collections::BTreeMap;

/// Returns for each container how many bytes its values have, counting only values with at most `depth` containers open
/// at once, itself included. The map has an entry for each name. Fails only if memory runs out.
///
/// Each round allows one more open container than the round before; the first allows one. A round recomputes only
/// containers whose sizes depend on sizes that changed, so it takes at most time linear in the size of the registry.
pub fn container_sizes<'a>(
    alloc: Global,
    containers: &'a Containers,
    depth: u32,
) -> Result<BTreeMap<&'a str, Sizes>, AllocError> {
    let formulas = formulas_of(alloc, containers)?;
    let users = users_by_number(alloc, &formulas)?;
    let mut rounds = Rounds::new(alloc, formulas.len())?;
    for _round in 0..depth {
        rounds.count(&formulas)?;
        if rounds.changed.is_empty() {
            break;
        }
        rounds.wait_for(&users)?;
    }
    named(alloc, containers, &rounds.known)
}

/// The formula of each container. A container's number is its position in the order of names.
fn formulas_of(alloc: Global, containers: &Containers) -> Result<Vec<Formula>, AllocError> {
    let mut numbers = BTreeMap::new(alloc);
    for (number, (name, _)) in containers.entries().iter().enumerate() {
        numbers.insert(name.as_str(), number)?;
    }
    let mut formulas = Vec::with_capacity(alloc, containers.len())?;
    for (_, container) in containers.entries() {
        formulas.push(Formula::of(alloc, container, &numbers)?)?;
    }
    Ok(formulas)
}

/// For each container, the numbers of the containers whose formulas mention it.
fn users_by_number(alloc: Global, formulas: &[Formula]) -> Result<Vec<Vec<usize>>, AllocError> {
    let mut users = Vec::with_capacity(alloc, formulas.len())?;
    for _ in formulas {
        users.push(Vec::new(alloc))?;
    }
    for (user, formula) in formulas.iter().enumerate() {
        push_user(user, formula, &mut users)?;
    }
    Ok(users)
}

fn push_user(user: usize, formula: &Formula, users: &mut [Vec<usize>]) -> Result<(), AllocError> {
    for step in &formula.steps {
        if let Step::Container(number) = step {
            if let Some(others) = users.get_mut(*number) {
                others.push(user)?;
            }
        }
    }
    Ok(())
}

/// The state after some rounds. Containers are identified by number.
#[derive(Drop)]
struct Rounds {
    known: Vec<Sizes>,
    /// The containers to recompute in the next round, each at most once.
    waiting: Vec<usize>,
    /// For each container, whether it is in `waiting`.
    waits: Vec<bool>,
    /// The sizes that the last round changed.
    changed: Vec<(usize, Sizes)>,
    stack: Vec<Sizes>,
}

impl Rounds {
    /// The state before the first round: no container has a value, and all must be computed.
    fn new(alloc: Global, count: usize) -> Result<Rounds, AllocError> {
        let mut waiting = Vec::with_capacity(alloc, count)?;
        for number in 0..count {
            waiting.push(number)?;
        }
        Ok(Rounds {
            known: vec![in alloc; Sizes::NoValue; count]?,
            waiting,
            waits: vec![in alloc; true; count]?,
            changed: Vec::new(alloc),
            stack: Vec::new(alloc),
        })
    }

    /// Recomputes the waiting containers. Each sees the sizes from before this round.
    fn count(&mut self, formulas: &[Formula]) -> Result<(), AllocError> {
        self.changed.clear();
        for number in &self.waiting {
            if let Some(formula) = formulas.get(*number) {
                let sizes = formula.sizes(&self.known, &mut self.stack)?;
                if sizes != sizes_at(&self.known, *number) {
                    self.changed.push((*number, sizes))?;
                }
            }
        }
        for (number, sizes) in &self.changed {
            if let Some(known) = self.known.get_mut(*number) {
                *known = *sizes;
            }
        }
        Ok(())
    }

    /// Queues the containers whose sizes depend on sizes that changed.
    fn wait_for(&mut self, users: &[Vec<usize>]) -> Result<(), AllocError> {
        for number in &self.waiting {
            set(*number, false, &mut self.waits);
        }
        self.waiting.clear();
        for (number, _) in &self.changed {
            if let Some(others) = users.get(*number) {
                push_new(others, &mut self.waiting, &mut self.waits)?;
            }
        }
        Ok(())
    }
}

/// Queues the containers that aren't queued yet.
fn push_new(
    others: &[usize],
    waiting: &mut Vec<usize>,
    waits: &mut [bool],
) -> Result<(), AllocError> {
    for number in others {
        if waits.get(*number) == Some(&false) {
            set(*number, true, waits);
            waiting.push(*number)?;
        }
    }
    Ok(())
}

fn set(number: usize, is_waiting: bool, waits: &mut [bool]) {
    if let Some(place) = waits.get_mut(number) {
        *place = is_waiting;
    }
}

/// The sizes by container name.
fn named<'a>(
    alloc: Global,
    containers: &'a Containers,
    known: &[Sizes],
) -> Result<BTreeMap<&'a str, Sizes>, AllocError> {
    let mut sizes = BTreeMap::new(alloc);
    for (number, (name, _)) in containers.entries().iter().enumerate() {
        sizes.insert(name.as_str(), sizes_at(known, number))?;
    }
    Ok(sizes)
}
