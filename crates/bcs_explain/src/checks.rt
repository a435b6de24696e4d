//! Steps that read no piece of their own, but may report a stop. They are outside the recursion.
ghost use Rattle.std.specs.Prelude.{◌≡◌, ◌+◌, ◌<◌, ◌≤◌, ◌^◌, IfOk, length};
ghost use Rattle.std.specs.Ordering.{nat_cmp};
ghost use Rattle.std.specs.Map.{lookup};
ghost use Rattle.std.specs.Option.{option_copied};
ghost use Rattle.std.specs.BTreeMap.{is_at};
ghost use Rattle.bcs_decode_spec.specs.Reading.{key_after};
ghost use Rattle.bcs_key_order.specs.Following.{Validates, key_bytes};
ghost use Rattle.bcs_decode_spec.specs.Steps.{node_here, enter_here, unsupported_here, variant_past};
ghost use Rattle.bcs_decode_slice.specs.Passing.{Passes, Onward};
ghost use Rattle.bcs_explain.specs.Covering.{Covers, ReportsStop, ReportsAnyStop};

use crate::listener::{Expected, Listener};
use crate::reporting::report_stop;
use crate::trail::Trail;
use bcs_decode_slice::cursor::{self, Cursor};
use bcs_decode_slice::shallow;
use bcs_decode_spec::{Reason, Stop};
use bcs_key_order::following;
use bcs_registry_model::{Named, VariantFormat};
use std::collections::BTreeMap;

/// Counts a node, if one is left.
#[tactic(auto, using(crate::proofs::Covering::node_covers))]
#[inline(never)]
pub fn node<T: Listener>(
    cursor: &mut Cursor,
    trail: &Trail<'_, '_, '_>,
    out: &mut T,
) -> Result<(), Stop>
    requires room { cursor.old.place + length cursor.old.rest.now < 2 ^ 64 }
    ensures passes { Passes (λ x. x) result node_here cursor.old cursor.new }
    ensures onward { Onward cursor.old cursor.new }
    ensures covers { Covers T.heard result cursor.old out.old cursor.new out.new }
{
    let result = cursor::node(cursor);
    report_stop(&result, trail, Expected::Node, out);
    result
}

/// Opens the container `name`, if `depth` allows one more.
#[tactic(auto, using(crate::proofs::Covering::enter_covers))]
#[inline(never)]
pub fn enter<T: Listener>(
    cursor: &mut Cursor,
    depth: u32,
    name: &str,
    trail: &Trail<'_, '_, '_>,
    out: &mut T,
) -> Result<(), Stop>
    requires room { cursor.old.place + length cursor.old.rest.now < 2 ^ 64 }
    ensures passes { Passes (λ x. x) result (enter_here depth) cursor.old cursor.new }
    ensures onward { Onward cursor.old cursor.new }
    ensures positive { IfOk result (λ _. 0 < depth) }
    ensures covers { Covers T.heard result cursor.old out.old cursor.new out.new }
{
    let result = shallow::enter(cursor, depth);
    report_stop(&result, trail, Expected::Container(name), out);
    result
}

/// Reads a variant's number, and returns its place and the number. The caller reports the piece, with the name.
#[inline(never)]
pub fn variant_number<T: Listener>(
    cursor: &mut Cursor,
    trail: &Trail<'_, '_, '_>,
    out: &mut T,
) -> Result<(u64, u32), Stop>
    requires room { cursor.old.place + length cursor.old.rest.now < 2 ^ 64 }
    ensures passes { Passes (λ x. x) result variant_past cursor.old cursor.new }
    ensures onward { Onward cursor.old cursor.new }
    ensures halts { ReportsAnyStop T.heard result out.old out.new }
{
    let result = shallow::variant_number(cursor);
    report_stop(&result, trail, Expected::Number, out);
    result
}

/// Checks that a key, which begins at `start`, is above the last one.
#[inline(never)]
pub fn follows<T: Listener>(
    last: Option<&[u8]>,
    key: &[u8],
    start: u64,
    trail: &Trail<'_, '_, '_>,
    out: &mut T,
) -> Result<(), Stop>
    ensures validates { Validates result (key_after (key_bytes last.entry) key.now start) }
    ensures halts { ReportsAnyStop T.heard result out.old out.new }
{
    let result = following::follows(last, key, start);
    report_stop(&result, trail, Expected::LaterKey, out);
    result
}

/// The variant with this number, if the enum has one.
pub fn variant_numbered<'r>(
    variants: &'r BTreeMap<u32, Named<VariantFormat>>,
    number: u32,
) -> Option<&'r Named<VariantFormat>>
    ensures { option_copied result ≡ lookup (is_at (nat_cmp number)) variants.now.entries }
{
    variants.get(&number)
}

/// Reports that the enum has no variant with the number at `start`.
#[inline(never)]
pub fn unknown_variant<T: Listener>(start: u64, trail: &Trail<'_, '_, '_>, out: &mut T) -> Stop
    ensures reason { result.reason ≡ Reason.UnknownVariant }
    ensures place { result.place ≡ start }
    ensures halts { ReportsStop T.heard out.old out.new }
{
    out.halt(trail, Expected::Number);
    Stop {
        reason: Reason::UnknownVariant,
        place: start,
    }
}

/// Reports that the registry has no such container, which can't happen if it admits the format.
#[inline(never)]
pub fn unknown_name<T: Listener>(cursor: &Cursor, trail: &Trail<'_, '_, '_>, out: &mut T) -> Stop
    ensures reason { result.reason ≡ Reason.Unsupported }
    ensures place { result.place ≡ cursor.now.place }
    ensures halts { ReportsStop T.heard out.old out.new }
{
    out.halt(trail, Expected::Nothing);
    Stop {
        reason: Reason::Unsupported,
        place: cursor.place,
    }
}

/// Reports that the format has no values.
#[tactic(auto, using(crate::proofs::Covering::none_covers))]
pub fn unsupported<T: Listener>(
    cursor: &mut Cursor,
    trail: &Trail<'_, '_, '_>,
    out: &mut T,
) -> Result<(), Stop>
    requires room { cursor.old.place + length cursor.old.rest.now < 2 ^ 64 }
    ensures passes { Passes (λ x. x) result unsupported_here cursor.old cursor.new }
    ensures onward { Onward cursor.old cursor.new }
    ensures covers { Covers T.heard result cursor.old out.old cursor.new out.new }
{
    out.halt(trail, Expected::Nothing);
    shallow::unsupported(cursor)
}
