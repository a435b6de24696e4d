//! Calls the listener.
ghost use Rattle.std.specs.Prelude.{◌≡◌, ℕ, ◌+◌, ◌-◌, ◌<◌, ◌≤◌, ◌^◌, List, length, drop};
ghost use Rattle.bcs_explain.specs.Covering.{Covered, ReportsAnyStop};

use crate::listener::{Expected, Listener, Meaning};
use crate::trail::Trail;
use bcs_decode_slice::cursor::Cursor;
use bcs_decode_spec::Stop;

/// Reports the bytes from `start` to the cursor as one piece, if there are any. `from` is the input from `start` on.
#[inline(never)]
pub fn report_piece<T: Listener>(
    start: u64,
    from: &[u8],
    cursor: &Cursor,
    trail: &Trail<'_, '_, '_>,
    meaning: Meaning<'_>,
    out: &mut T,
)
    requires behind { start ≤ cursor.now.place }
    requires within { cursor.now.place ≤ start + length from.now }
    requires room { start + length from.now < 2 ^ 64 }
    requires rest { cursor.now.rest.now ≡ drop (cursor.now.place - start) from.now }
    ensures { (input : List ℕ) → Covered T.heard start from.now out.old input → Covered T.heard cursor.now.place cursor.now.rest.now out.new input }
{
    let (piece, _) = from.split_at((cursor.place - start) as usize);
    if !piece.is_empty() {
        out.hear(start, piece, trail, meaning, cursor.nodes);
    }
}

/// Reports the stop if there is one.
pub fn report_stop<X, T: Listener>(
    found: &Result<X, Stop>,
    trail: &Trail<'_, '_, '_>,
    expected: Expected<'_>,
    out: &mut T,
)
    ensures { ReportsAnyStop T.heard found.now out.old out.new }
{
    match found {
        Ok(_) => {}
        Err(_) => out.halt(trail, expected),
    }
}
