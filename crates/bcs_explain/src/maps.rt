//! Reports maps, whose keys must ascend.
ghost use Rattle.std.specs.Prelude.{◌≡◌, ℕ, ◌+◌, ◌-◌, ◌<◌, ◌≤◌, ◌^◌, None, length};
ghost use Rattle.bcs_registry_model.specs.Shape.{map as map_shape};
ghost use Rattle.bcs_registry_model.specs.View.{shape_of};
ghost use Rattle.bcs_decode_spec.specs.Reading.{pairs_here, skipping};
ghost use Rattle.bcs_decode_spec.specs.Steps.{skip};
ghost use Rattle.bcs_decode_slice.specs.Passing.{Passes, Onward};
ghost use Rattle.bcs_explain.specs.Covering.{Covers};

use crate::checks::follows;
use crate::listener::{Counted, Listener};
use crate::prefixes::report_length;
use crate::trail::{Step, Trail, below};
use crate::walking::value;
use bcs_decode_slice::cursor::Cursor;
use bcs_decode_spec::Stop;
use bcs_registry::{Format, Registry};

/// The formats of an entry's key and value.
#[derive(Clone, Copy)]
pub(crate) struct Entry<'r> {
    pub(crate) key: &'r Format,
    pub(crate) content: &'r Format,
}

/// `count` entries.
#[derive(Clone, Copy)]
struct EntryRun<'r> {
    key: &'r Format,
    content: &'r Format,
    count: u32,
}

/// Reports a map: its length, and its entries.
#[inline(never)]
#[cycle(walking)]
pub(crate) fn map<'r, 'a, T: Listener>(
    registry: &'r Registry,
    entry: Entry<'r>,
    depth: u32,
    cursor: &mut Cursor<'a>,
    trail: &Trail<'_, 'r, 'a>,
    out: &mut T,
) -> Result<(), Stop>
    requires room { cursor.old.place + length cursor.old.rest.now < 2 ^ 64 }
    ensures passes { Passes (λ x. x) result (skip registry.now depth (map_shape (shape_of entry.entry.key.now) (shape_of entry.entry.content.now))) cursor.old cursor.new }
    ensures onward { Onward cursor.old cursor.new }
    ensures covers { Covers T.heard result cursor.old out.old cursor.new out.new }
{
    let count = report_length(cursor, Counted::Map, trail, out)?;
    let run = EntryRun {
        key: entry.key,
        content: entry.content,
        count,
    };
    entries(registry, run, depth, cursor, trail, out)
}

/// Reports the entries of a map. A key that isn't above the one before it is a stop.
#[inline(always)]
#[cycle(walking)]
fn entries<'r, 'a, T: Listener>(
    registry: &'r Registry,
    run: EntryRun<'r>,
    depth: u32,
    cursor: &mut Cursor<'a>,
    trail: &Trail<'_, 'r, 'a>,
    out: &mut T,
) -> Result<(), Stop>
    requires room { cursor.old.place + length cursor.old.rest.now < 2 ^ 64 }
    ensures passes { Passes (λ x. x) result (pairs_here skipping (skip registry.now depth (shape_of run.entry.key.now)) (skip registry.now depth (shape_of run.entry.content.now)) None run.entry.count) cursor.old cursor.new }
    ensures onward { Onward cursor.old cursor.new }
    ensures covers { Covers T.heard result cursor.old out.old cursor.new out.new }
{
    let mut last: Option<&'a [u8]> = None;
    for i in 0..run.count {
        let (start, from) = (cursor.place, cursor.rest);
        // A single variable for both steps, so that each stack frame stores only one.
        let mut at = below(&*trail, Step::Key(i));
        value(registry, run.key, depth, cursor, &at, out)?;
        let (found, _) = from.split_at((cursor.place - start) as usize);
        follows(last, found, start, &at, out)?;
        at = below(&*trail, Step::Value(i, found));
        value(registry, run.content, depth, cursor, &at, out)?;
        last = Some(found);
    }
    Ok(())
}
