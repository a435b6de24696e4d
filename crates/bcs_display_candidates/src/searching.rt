//! The containers that accept given bytes.
ghost use Rattle.std.specs.Prelude.{length, IfSome};
ghost use Rattle.bcs_registry_model.specs.View.{shape_of};
ghost use Rattle.bcs_registry_model.specs.WellFormed.{Admits};
ghost use Rattle.bcs_value_model.specs.Tree.{Tree};
ghost use Rattle.bcs_decode_spec.specs.Accepting.{Accepts};

use crate::evidence::Evidence;
use bcs_decode::scan;
use bcs_explain::explain;
use bcs_registry::{Format, Registry};
use bcs_value::Limits;
use std::alloc::{AllocError, Global};

/// A container of which given bytes are exactly one value.
#[derive(Clone, Copy, Debug, Drop)]
pub struct Candidate<'r> {
    pub name: &'r str,
    pub evidence: Evidence,
}

/// The containers of which the bytes are exactly one value, the likeliest first: with the most checked bytes, then with
/// the fewest pieces, then by the bytes of the name. Takes a scan of the bytes for each container. Fails only if memory
/// runs out.
pub fn candidates<'r>(
    alloc: Global,
    registry: &'r Registry,
    limits: &Limits,
    bytes: &[u8],
) -> Result<Vec<Candidate<'r>>, AllocError> {
    let mut found: Vec<Candidate<'r>> = Vec::new(alloc);
    for (name, _) in registry.containers().entries() {
        let name = name.as_str();
        let format = Format::TypeName(String::from_str(alloc, name)?);
        if registry.admits(&format)
            && let Some(evidence) = evidence_of(registry, &format, limits, bytes)
        {
            found.push(Candidate { name, evidence })?;
        }
    }
    // The sort is stable, and the registry has its containers by the bytes of their names.
    found.sort_by(|one, other| {
        let (one, other) = (one.evidence, other.evidence);
        other
            .checked
            .cmp(&one.checked)
            .then(one.pieces.cmp(&other.pieces))
    })?;
    Ok(found)
}

// What speaks for the format, if the bytes are exactly one value of it.
fn evidence_of(
    registry: &Registry,
    format: &Format,
    limits: &Limits,
    bytes: &[u8],
) -> Option<Evidence>
    requires admitted { Admits registry.now (shape_of format.now) }
    ensures { IfSome result (λ _. (c : Tree) × Accepts registry.now limits.now (shape_of format.now) bytes.now (length bytes.now) c) }
{
    match scan(registry, format, limits, bytes) {
        Ok(length) => if length == bytes.len() {
            Some(pieces_of(registry, format, limits, bytes))
        } else {
            None
        },
        Err(_) => None,
    }
}

fn pieces_of(registry: &Registry, format: &Format, limits: &Limits, bytes: &[u8]) -> Evidence
    requires { Admits registry.now (shape_of format.now) }
{
    let mut evidence = Evidence::none();
    // Whether the bytes are accepted is known.
    let _ = explain(registry, format, limits, bytes, &mut evidence);
    evidence
}
