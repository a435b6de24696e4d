//! The entry to the recursion, for a value of any format; and options.
ghost use Rattle.std.specs.Prelude.{◌+◌, ◌<◌, ◌^◌, length};
ghost use Rattle.bcs_registry_model.specs.Shape.{option as option_shape};
ghost use Rattle.bcs_registry_model.specs.View.{shape_of};
ghost use Rattle.bcs_decode_spec.specs.Steps.{skip};
ghost use Rattle.bcs_decode_slice.specs.Passing.{Passes, Onward};
ghost use Rattle.bcs_explain.specs.Covering.{Covers};

use crate::containers::named;
use crate::listener::Listener;
use crate::maps::{Entry, map};
use crate::prefixes::report_option_tag;
use crate::scalars::report_scalar;
use crate::sequences::{Run, array, list, tuple};
use crate::trail::{Step, Trail, below};
use bcs_decode_slice::cursor::Cursor;
use bcs_decode_spec::Stop;
use bcs_registry::{Format, Registry};
use bcs_registry_model::Kind;

/// Reports a value of `format`. At most `depth` more containers may be opened. It has no local variables, so each level
/// of a format costs one stack frame, that of the function for its kind.
#[inline(always)]
#[cycle(walking)]
pub fn value<'r, 'a, T: Listener>(
    registry: &'r Registry,
    format: &'r Format,
    depth: u32,
    cursor: &mut Cursor<'a>,
    trail: &Trail<'_, 'r, 'a>,
    out: &mut T,
) -> Result<(), Stop>
    requires room { cursor.old.place + length cursor.old.rest.now < 2 ^ 64 }
    ensures passes { Passes (λ x. x) result (skip registry.now depth (shape_of format.now)) cursor.old cursor.new }
    ensures onward { Onward cursor.old cursor.new }
    ensures covers { Covers T.heard result cursor.old out.old cursor.new out.new }
{
    match format.kind() {
        Kind::Scalar(scalar) => report_scalar(scalar, cursor, trail, out),
        Kind::TypeName(name) => named(registry, name, depth, cursor, trail, out),
        Kind::Opt(content) => option(registry, content, depth, cursor, trail, out),
        Kind::Seq(element) => list(registry, element, depth, cursor, trail, out),
        Kind::Map(key, content) => {
            map(registry, Entry { key, content }, depth, cursor, trail, out)
        }
        Kind::Tuple(formats) => tuple(registry, formats, depth, cursor, trail, out),
        Kind::TupleArray(element, size) => {
            let run = Run {
                element,
                count: size,
            };
            array(registry, run, depth, cursor, trail, out)
        }
    }
}

/// Reports an option: its tag byte, and its value if there is one.
#[inline(never)]
#[cycle(walking)]
fn option<'r, 'a, T: Listener>(
    registry: &'r Registry,
    content: &'r Format,
    depth: u32,
    cursor: &mut Cursor<'a>,
    trail: &Trail<'_, 'r, 'a>,
    out: &mut T,
) -> Result<(), Stop>
    requires room { cursor.old.place + length cursor.old.rest.now < 2 ^ 64 }
    ensures passes { Passes (λ x. x) result (skip registry.now depth (option_shape (shape_of content.now))) cursor.old cursor.new }
    ensures onward { Onward cursor.old cursor.new }
    ensures covers { Covers T.heard result cursor.old out.old cursor.new out.new }
{
    if report_option_tag(cursor, trail, out)? {
        value(
            registry,
            content,
            depth,
            cursor,
            &below(&*trail, Step::Inner),
            out,
        )
    } else {
        Ok(())
    }
}
