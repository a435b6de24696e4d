//! Reports lists, arrays and tuples, whose elements have indices from 0 on.
ghost use Rattle.std.specs.Prelude.{◌≡◌, ℕ, ◌+◌, ◌-◌, ◌<◌, ◌≤◌, ◌^◌, length};
ghost use Rattle.bcs_registry_model.specs.Shape.{seq as list_shape, tuple as tuple_shape, array as array_shape};
ghost use Rattle.bcs_registry_model.specs.View.{shape_of, formats_shapes};
ghost use Rattle.bcs_decode_spec.specs.Reading.{items_here, skipping};
ghost use Rattle.bcs_decode_spec.specs.Steps.{skip};
ghost use Rattle.bcs_decode_slice.specs.Passing.{Passes, Onward};
ghost use Rattle.bcs_explain.specs.Covering.{Covers};

use crate::checks::node;
use crate::empty_elements::skip_empty_elements;
use crate::listener::Listener;
use crate::octets::{counted_in, is_octet, report_octets};
use crate::prefixes::report_length;
use crate::trail::{Step, Trail, below};
use crate::walking::value;
use bcs_decode_slice::cursor::Cursor;
use bcs_decode_spec::Stop;
use bcs_registry::{Format, Registry};

/// `count` values of one format.
#[derive(Clone, Copy)]
pub(crate) struct Run<'r> {
    pub(crate) element: &'r Format,
    pub(crate) count: u64,
}

/// The last of `count` values of one format, from index `first` on.
#[derive(Clone, Copy)]
struct RunFrom<'r> {
    element: &'r Format,
    first: u64,
    count: u64,
}

/// Reports a list: its length, and its elements.
#[inline(never)]
#[cycle(walking)]
pub(crate) fn list<'r, 'a, T: Listener>(
    registry: &'r Registry,
    element: &'r Format,
    depth: u32,
    cursor: &mut Cursor<'a>,
    trail: &Trail<'_, 'r, 'a>,
    out: &mut T,
) -> Result<(), Stop>
    requires room { cursor.old.place + length cursor.old.rest.now < 2 ^ 64 }
    ensures passes { Passes (λ x. x) result (skip registry.now depth (list_shape (shape_of element.now))) cursor.old cursor.new }
    ensures onward { Onward cursor.old cursor.new }
    ensures covers { Covers T.heard result cursor.old out.old cursor.new out.new }
{
    let count = report_length(cursor, counted_in(element), trail, out)?;
    let run = Run {
        element,
        count: u64::from(count),
    };
    elements(registry, run, depth, cursor, trail, out)
}

/// Reports an array, which is encoded without its length.
#[inline(never)]
#[cycle(walking)]
pub(crate) fn array<'r, 'a, T: Listener>(
    registry: &'r Registry,
    run: Run<'r>,
    depth: u32,
    cursor: &mut Cursor<'a>,
    trail: &Trail<'_, 'r, 'a>,
    out: &mut T,
) -> Result<(), Stop>
    requires room { cursor.old.place + length cursor.old.rest.now < 2 ^ 64 }
    ensures passes { Passes (λ x. x) result (skip registry.now depth (array_shape (shape_of run.entry.element.now) run.entry.count)) cursor.old cursor.new }
    ensures onward { Onward cursor.old cursor.new }
    ensures covers { Covers T.heard result cursor.old out.old cursor.new out.new }
{
    node(cursor, trail, out)?;
    elements(registry, run, depth, cursor, trail, out)
}

/// Reports the elements of a list or array. `U8`s are one piece. Elements without bytes are skipped in one step.
#[inline(always)]
#[cycle(walking)]
fn elements<'r, 'a, T: Listener>(
    registry: &'r Registry,
    run: Run<'r>,
    depth: u32,
    cursor: &mut Cursor<'a>,
    trail: &Trail<'_, 'r, 'a>,
    out: &mut T,
) -> Result<(), Stop>
    requires room { cursor.old.place + length cursor.old.rest.now < 2 ^ 64 }
    ensures passes { Passes (λ x. x) result (items_here skipping (skip registry.now depth (shape_of run.entry.element.now)) run.entry.count) cursor.old cursor.new }
    ensures onward { Onward cursor.old cursor.new }
    ensures covers { Covers T.heard result cursor.old out.old cursor.new out.new }
{
    if is_octet(run.element) {
        report_octets(cursor, run.count, trail, out)
    } else {
        let skipped = skip_empty_elements(registry, run.element, run.count, depth, cursor);
        let rest = RunFrom {
            element: run.element,
            first: skipped,
            count: run.count,
        };
        elements_from(registry, rest, depth, cursor, trail, out)
    }
}

/// Reports the elements that weren't skipped, one by one.
#[inline(always)]
#[cycle(walking)]
fn elements_from<'r, 'a, T: Listener>(
    registry: &'r Registry,
    run: RunFrom<'r>,
    depth: u32,
    cursor: &mut Cursor<'a>,
    trail: &Trail<'_, 'r, 'a>,
    out: &mut T,
) -> Result<(), Stop>
    requires room { cursor.old.place + length cursor.old.rest.now < 2 ^ 64 }
    ensures passes { Passes (λ x. x) result (items_here skipping (skip registry.now depth (shape_of run.entry.element.now)) (run.entry.count - run.entry.first)) cursor.old cursor.new }
    ensures onward { Onward cursor.old cursor.new }
    ensures covers { Covers T.heard result cursor.old out.old cursor.new out.new }
{
    for i in run.first..run.count {
        value(
            registry,
            run.element,
            depth,
            cursor,
            &below(&*trail, Step::Item(i)),
            out,
        )?;
    }
    Ok(())
}

/// Reports one value of each format.
#[inline(never)]
#[cycle(walking)]
pub(crate) fn tuple<'r, 'a, T: Listener>(
    registry: &'r Registry,
    formats: &'r [Format],
    depth: u32,
    cursor: &mut Cursor<'a>,
    trail: &Trail<'_, 'r, 'a>,
    out: &mut T,
) -> Result<(), Stop>
    requires room { cursor.old.place + length cursor.old.rest.now < 2 ^ 64 }
    ensures passes { Passes (λ x. x) result (skip registry.now depth (tuple_shape (formats_shapes formats.now))) cursor.old cursor.new }
    ensures onward { Onward cursor.old cursor.new }
    ensures covers { Covers T.heard result cursor.old out.old cursor.new out.new }
{
    node(cursor, trail, out)?;
    for (i, format) in formats.iter().enumerate() {
        value(
            registry,
            format,
            depth,
            cursor,
            &below(&*trail, Step::Item(i as u64)),
            out,
        )?;
    }
    Ok(())
}
