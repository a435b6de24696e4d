//! A cursor over a slice of bytes. Each function reads one item and advances the cursor.
ghost use Rattle.std.specs.Prelude.{◌≡◌, ℕ, ◌+◌, ◌<◌, ◌≤◌, ◌^◌, length, take, drop, IfOk};
ghost use Rattle.bcs_decode_spec.specs.Reading.{number_here, length_here, bytes_here, text_here, flag_here};
ghost use Rattle.bcs_decode_spec.specs.Steps.{node_here};
ghost use Rattle.bcs_decode_slice.specs.Passing.{Passes, Onward};

use bcs_decode_spec::{Reason, Stop};
use bcs_num::{LENGTH_LIMIT, NumFault, take_uleb};

/// The unread rest of a slice.
#[derive(Drop)]
pub struct Cursor<'a> {
    /// The bytes that haven't been read.
    pub rest: &'a [u8],
    /// The number of bytes read so far.
    pub place: u64,
    /// The number of nodes that may still begin.
    pub nodes: u32,
}

/// Counts a node.
#[tactic(auto, unfolding(bcs_decode_spec::specs::Reading::node, bcs_decode_spec::specs::Reading::give))]
pub fn node(cursor: &mut Cursor) -> Result<(), Stop>
    requires room { cursor.old.place + length cursor.old.rest.now < 2 ^ 64 }
    ensures passes { Passes (λ x. x) result node_here cursor.old cursor.new }
    ensures onward { Onward cursor.old cursor.new }
{
    if cursor.nodes == 0 {
        return Err(Stop {
            reason: Reason::TooManyNodes,
            place: cursor.place,
        });
    }
    cursor.nodes -= 1;
    Ok(())
}

/// Advances by `count` bytes, which must be there, and returns them.
pub fn advance<'a>(cursor: &mut Cursor<'a>, count: usize) -> &'a [u8]
    requires room { cursor.old.place + length cursor.old.rest.now < 2 ^ 64 }
    requires there { count ≤ length cursor.old.rest.now }
    ensures bytes { result.now ≡ take count cursor.old.rest.now }
    ensures rest { cursor.new.rest.now ≡ drop count cursor.old.rest.now }
    ensures place { cursor.new.place ≡ cursor.old.place + count }
    ensures nodes { cursor.new.nodes ≡ cursor.old.nodes }
{
    let (front, rest) = cursor.rest.split_at(count);
    cursor.rest = rest;
    cursor.place += count as u64;
    front
}

/// Reads a ULEB128 number of at most 32 bits.
#[tactic(auto, using(crate::proofs::Steps::number_found, crate::proofs::Steps::number_ended, crate::proofs::Steps::number_long, crate::proofs::Steps::number_large))]
pub fn number(cursor: &mut Cursor) -> Result<u32, Stop>
    requires room { cursor.old.place + length cursor.old.rest.now < 2 ^ 64 }
    ensures passes { Passes (λ x. x) result number_here cursor.old cursor.new }
    ensures onward { Onward cursor.old cursor.new }
{
    match take_uleb(cursor.rest) {
        Ok((number, len)) => {
            advance(cursor, len);
            Ok(number)
        }
        Err(NumFault::EndOfInput) => Err(end_of_input(cursor)),
        Err(NumFault::LongForm) => Err(Stop {
            reason: Reason::LongForm,
            place: cursor.place,
        }),
        Err(NumFault::NumberTooLarge) => Err(Stop {
            reason: Reason::NumberTooLarge,
            place: cursor.place,
        }),
    }
}

pub fn end_of_input(cursor: &Cursor) -> Stop
    requires room { cursor.now.place + length cursor.now.rest.now < 2 ^ 64 }
    ensures reason { result.reason ≡ Reason.EndOfInput }
    ensures place { result.place ≡ cursor.now.place + length cursor.now.rest.now }
{
    Stop {
        reason: Reason::EndOfInput,
        place: cursor.place + cursor.rest.len() as u64,
    }
}

/// Reads a length: a ULEB128 number of at most 2^31 - 1.
#[tactic(auto, unfolding(bcs_decode_spec::specs::Reading::chain, bcs_decode_spec::specs::Reading::give, bcs_decode_spec::specs::Reading::fail, bcs_decode_spec::specs::Reading::length_here))]
pub fn length(cursor: &mut Cursor) -> Result<u32, Stop>
    requires room { cursor.old.place + length cursor.old.rest.now < 2 ^ 64 }
    ensures passes { Passes (λ x. x) result length_here cursor.old cursor.new }
    ensures onward { Onward cursor.old cursor.new }
{
    let start = cursor.place;
    let length = number(cursor)?;
    if length as usize > LENGTH_LIMIT {
        return Err(Stop {
            reason: Reason::LengthTooLarge,
            place: start,
        });
    }
    Ok(length)
}

/// Reads `count` bytes.
#[tactic(auto, unfolding(bcs_decode_spec::specs::Reading::bytes_here))]
pub fn bytes<'a>(cursor: &mut Cursor<'a>, count: usize) -> Result<&'a [u8], Stop>
    requires room { cursor.old.place + length cursor.old.rest.now < 2 ^ 64 }
    ensures passes { Passes (λ x. x.now) result (bytes_here count) cursor.old cursor.new }
    ensures taken { IfOk result (λ x. cursor.new.place ≡ cursor.old.place + length x.now) }
    ensures onward { Onward cursor.old cursor.new }
{
    if cursor.rest.len() < count {
        return Err(end_of_input(cursor));
    }
    Ok(advance(cursor, count))
}

/// Reads a string of `count` bytes, which must be UTF-8 (RFC 3629).
#[tactic(auto, using(std::proofs::lemmas::Str::utf8_valid_len_le), unfolding(bcs_decode_spec::specs::Reading::chain, bcs_decode_spec::specs::Reading::give, bcs_decode_spec::specs::Reading::fail, bcs_decode_spec::specs::Reading::text_here))]
pub fn text<'a>(cursor: &mut Cursor<'a>, count: usize) -> Result<&'a str, Stop>
    requires room { cursor.old.place + length cursor.old.rest.now < 2 ^ 64 }
    ensures passes { Passes (λ x. x.now) result (text_here count) cursor.old cursor.new }
    ensures onward { Onward cursor.old cursor.new }
{
    let start = cursor.place;
    let found = bytes(cursor, count)?;
    match simdutf8::compat::from_utf8(found) {
        Ok(text) => Ok(text),
        Err(error) => Err(Stop {
            reason: Reason::BadUtf8,
            place: start + error.valid_up_to() as u64,
        }),
    }
}

/// Reads a byte that must be `00` or `01`. The stop for any other byte has the reason `bad`.
#[tactic(auto, unfolding(bcs_decode_spec::specs::Reading::flag_here))]
pub fn flag(cursor: &mut Cursor, bad: Reason) -> Result<bool, Stop>
    requires room { cursor.old.place + length cursor.old.rest.now < 2 ^ 64 }
    ensures passes { Passes (λ x. x) result (flag_here bad) cursor.old cursor.new }
    ensures onward { Onward cursor.old cursor.new }
{
    let Some((first, rest)) = cursor.rest.split_first() else {
        return Err(end_of_input(cursor));
    };
    if *first > 1 {
        return Err(Stop {
            reason: bad,
            place: cursor.place,
        });
    }
    cursor.rest = rest;
    cursor.place += 1;
    Ok(*first == 1)
}
