//! Explains the byte strings that views name.
ghost use Rattle.std.specs.Prelude.{IfSome};
ghost use Rattle.bcs_registry_model.specs.View.{shape_of};
ghost use Rattle.bcs_registry_model.specs.WellFormed.{Admits};

use crate::ending::{Ending, InnerStop, Why, refusal_at};
use crate::findings::Findings;
use crate::formats::read_format;
use crate::found::Found;
use crate::walk::{Hole, Scene, Walk};
use crate::walking::walk_value;
use bcs_explain::Stop;
use bcs_registry::{Format, Registry};
use bcs_value::Limits;
use std::alloc::{AllocError, Global};

/// The lines of all values, in order.
#[derive(Drop)]
pub(crate) struct Output {
    pub text: Vec<u8>,
    pub findings: Findings,
}

/// What the byte strings in a value are.
#[derive(Drop)]
pub(crate) enum Inside {
    /// Each is a value. All of these have this number of nodes.
    Whole(u32),
    /// One of them isn't.
    Ended(Ending),
}

/// Appends the lines of a value and, in their places, those of the byte strings in it. At most `levels` byte strings
/// are explained inside each other.
pub(crate) fn put_walk(
    alloc: Global,
    scene: Scene<'_>,
    input: &[u8],
    walk: Walk,
    levels: u32,
    out: &mut Output,
) -> Result<Inside, AllocError> {
    let Walk {
        text,
        holes,
        findings,
        nodes: _,
        end,
        halt,
        inner,
    } = walk;
    out.findings.add(&findings)?;
    let mut from: usize = 0;
    let mut used: u32 = 0;
    for hole in holes {
        out.text.extend_from_slice(between(&text, from, hole.at))?;
        from = hole.at;
        if levels == 0 {
            // This never happens: no view has so long a name.
            continue;
        }
        let nodes = hole.nodes.saturating_sub(used);
        let value = walk_of(alloc, scene, input, hole, nodes)?;
        // Nodes without bytes after the last piece don't count.
        used = used.saturating_add(nodes.saturating_sub(value.nodes));
        match put_walk(alloc, scene, input, value, levels - 1, out)? {
            Inside::Whole(more) => used = used.saturating_add(more),
            Inside::Ended(ending) => return Ok(Inside::Ended(ending)),
        }
    }
    out.text
        .extend_from_slice(between(&text, from, text.len()))?;
    match inner {
        Some(inner) => Ok(Inside::Ended(Ending { inner, end, halt })),
        None => Ok(Inside::Whole(used)),
    }
}

fn between(text: &[u8], start: usize, end: usize) -> &[u8] {
    text.get(start..end).unwrap_or(b"")
}

// The pieces of the value in a byte string, and the stop if its bytes aren't a value.
fn walk_of(
    alloc: Global,
    scene: Scene<'_>,
    input: &[u8],
    hole: Hole,
    nodes: u32,
) -> Result<Walk, AllocError> {
    let start = hole.above.start;
    let bytes = between(input, start as usize, hole.end as usize);
    let limits = limits_of(hole.depth, nodes);
    let Some(format) = format_of(alloc, scene, hole.format.as_str()) else {
        return Err(AllocError);
    };
    let (mut walk, stop) = walk_value(alloc, scene, hole.above, &format, &limits, bytes)?;
    if let (Some(stop), None) = (stop, &walk.inner) {
        let inner = inner_stop(alloc, scene.registry, &walk, stop, start, bytes)?;
        walk.inner = Some(inner);
    }
    Ok(walk)
}

// The format that a byte string has. `None` if memory ran out: the registry admits it.
fn format_of(alloc: Global, scene: Scene<'_>, format: &str) -> Option<Format>
    ensures { IfSome result (λ format. Admits scene.entry.registry.now (shape_of format)) }
{
    match read_format(alloc, scene.registry, format) {
        Ok(format) => Some(format),
        Err(_) => None,
    }
}

// The stop of a value that begins at offset `start`, and the refusal for it.
fn inner_stop(
    alloc: Global,
    registry: &Registry,
    walk: &Walk,
    stop: Stop,
    start: u64,
    bytes: &[u8],
) -> Result<InnerStop, AllocError> {
    let found = Found::InByteString(bytes.get(stop.place as usize..).unwrap_or(b""));
    Ok(InnerStop {
        why: Why::Stop(stop.reason),
        // This never saturates: the input has fewer than 2^64 bytes.
        place: start.saturating_add(stop.place),
        refusal: refusal_at(alloc, registry, stop.reason, &walk.halt, found)?,
        past: start.saturating_add(bytes.len() as u64),
    })
}

// The limits inside a byte string. The depth is never above that of the input, so they always exist.
fn limits_of(depth: u32, nodes: u32) -> Limits {
    match Limits::new(depth, nodes) {
        Some(limits) => limits,
        None => Limits::standard(),
    }
}
