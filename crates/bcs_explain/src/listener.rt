//! The listener, which receives the pieces and the stop.
ghost use Rattle.std.specs.Prelude.{◌≡◌, ℕ, ◌++◌, ◌+◌, ◌<◌, ◌^◌, Bool, false, List, length};
ghost use Rattle.bcs_explain.specs.Covering.{ReportsStop};

use crate::trail::Trail;
use bcs_num::Width;

/// What a length counts.
#[derive(Clone, Copy)]
pub enum Counted {
    Text,
    Bytes,
    List,
    /// The elements of a list of `U8`.
    Octets,
    Map,
}

/// What a piece encodes.
#[derive(Clone, Copy)]
pub enum Meaning<'a> {
    Truth(bool),
    Unsigned(u128),
    /// A signed integer: its width, and its bits in two's complement.
    Signed(Width, u128),
    Length(Counted, u32),
    Text(&'a str),
    Bytes(&'a [u8]),
    /// All elements of a list or array of `U8`.
    Octets,
    /// The tag byte of an option: whether a value follows.
    Option(bool),
    /// A variant's number, with its name.
    Variant(u32, &'a str),
}

/// What was expected where the bytes stop.
#[derive(Clone, Copy)]
pub enum Expected<'a> {
    Truth,
    Unsigned(Width),
    Signed(Width),
    Length(Counted),
    /// This number of UTF-8 bytes.
    Text(usize),
    /// This number of bytes.
    Bytes(usize),
    /// This number of elements of a list or array of `U8`.
    Octets(u64),
    /// The tag byte of an option, `00` or `01`.
    Option,
    /// The number of an existing variant.
    Number,
    /// A key above the one before it.
    LaterKey,
    /// Room to open this container, within the limit of depth.
    Container(&'a str),
    /// Room for one more node.
    Node,
    /// Nothing: the format has no values.
    Nothing,
}

/// Receives the pieces one by one and, if the bytes are invalid, the stop. The calls can't fail: a listener that runs
/// out of memory has to remember that, and ignore what follows.
pub trait Listener {
    /// The listener has received pieces that are exactly these bytes, and whether it has then received a stop.
    ghost heard: { Self → List ℕ → Bool → Type 0 };

    /// Receives a piece, at the byte offset where the previous piece ended. A piece has at least one byte. After it,
    /// `nodes` more nodes may begin.
    fn hear(
        &mut self,
        place: u64,
        bytes: &[u8],
        trail: &Trail<'_, '_, '_>,
        meaning: Meaning<'_>,
        nodes: u32,
    )
        requires filled { 0 < length bytes.now }
        requires room { place + length bytes.now < 2 ^ 64 }
        ensures { (before : List ℕ) → length before ≡ place → heard self.old before false → heard self.new (before ++ bytes.now) false };

    /// Receives the stop: the field path to it, and what was expected there.
    fn halt(&mut self, trail: &Trail<'_, '_, '_>, expected: Expected<'_>)
        ensures { ReportsStop heard self.old self.new };
}
