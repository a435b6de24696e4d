//! The keys of a map that is being read.
ghost use Rattle.std.specs.Prelude.{◌≡◌, ℕ, ◌≤◌, length, take, drop, false, true, Some, IfOk};
ghost use Rattle.bcs_decode_spec.specs.Reading.{key_after};
ghost use Rattle.bcs_decode_source.specs.Kept.{Validates, SamePlace, Stands, last_bytes};

use crate::progress::Progress;
use bcs_decode_spec::DecodeFault;
use bcs_key_order::following::follows;

/// The keys of a map that is being read. Their bytes are in `Progress::kept`.
#[derive(Drop)]
pub struct MapKeys {
    /// The length of `kept` when the map began.
    pub begun: usize,
    /// The range of the last key, if there is one.
    pub last: Option<Span>,
}

/// A range of `kept`.
#[derive(Clone, Copy)]
pub struct Span {
    pub from: usize,
    pub to: usize,
}

/// Checks that the key from `from` on is above the last key, and makes it the last key.
#[inline(never)]
pub fn follow(
    at: &mut Progress,
    keys: &mut MapKeys,
    from: usize,
    start: u64,
) -> Result<(), DecodeFault>
    requires stands { Stands keys.old.last keys.old.begun from }
    requires long { from ≤ length at.old.kept.items }
    ensures validates { Validates result (key_after (last_bytes keys.old.last at.old.kept.items) (drop from at.old.kept.items) start) start }
    ensures same { SamePlace at.old at.new }
    ensures recorded { at.old.is_in_key ≡ true → at.new.kept.items ≡ at.old.kept.items }
    ensures front { take keys.old.begun at.new.kept.items ≡ take keys.old.begun at.old.kept.items }
    ensures begun { keys.new.begun ≡ keys.old.begun }
    ensures stands { IfOk result (λ _. Stands keys.new.last keys.new.begun (length at.new.kept.items)) }
    ensures last { IfOk result (λ _. last_bytes keys.new.last at.new.kept.items ≡ Some (drop from at.old.kept.items)) }
{
    validate(keys, at.kept.as_slice(), from, start)?;
    settle(at, keys, from);
    Ok(())
}

/// Checks that the key from `from` on is above the last key.
fn validate(keys: &MapKeys, kept: &[u8], from: usize, start: u64) -> Result<(), DecodeFault>
    requires stands { Stands keys.now.last keys.now.begun from }
    requires long { from ≤ length kept.now }
    ensures validates { Validates result (key_after (last_bytes keys.now.last kept.now) (drop from kept.now) start) start }
{
    let last = match keys.last {
        Some(last) => Some(&kept[last.from..last.to]),
        None => None,
    };
    match follows(last, &kept[from..], start) {
        Ok(()) => Ok(()),
        Err(stop) => Err(DecodeFault::Stop(stop)),
    }
}

/// Makes the key from `from` on the last key. If no outer key is open, moves it down to where the map began.
fn settle(at: &mut Progress, keys: &mut MapKeys, from: usize)
    requires stands { Stands keys.old.last keys.old.begun from }
    requires long { from ≤ length at.old.kept.items }
    ensures same { SamePlace at.old at.new }
    ensures recorded { at.old.is_in_key ≡ true → at.new.kept.items ≡ at.old.kept.items }
    ensures front { take keys.old.begun at.new.kept.items ≡ take keys.old.begun at.old.kept.items }
    ensures begun { keys.new.begun ≡ keys.old.begun }
    ensures stands { Stands keys.new.last keys.new.begun (length at.new.kept.items) }
    ensures last { last_bytes keys.new.last at.new.kept.items ≡ Some (drop from at.old.kept.items) }
{
    let to = at.kept.len();
    if at.is_in_key {
        keys.last = Some(Span { from, to });
        return;
    }
    let end = keys.begun + (to - from);
    at.kept.copy_within(from..to, keys.begun);
    at.kept.truncate(end);
    keys.last = Some(Span {
        from: keys.begun,
        to: end,
    });
}

/// Drops the last key of a map that has ended, unless an outer key is open.
#[inline(never)]
pub fn forget_last_key(at: &mut Progress, keys: &MapKeys)
    ensures same { SamePlace at.old at.new }
    ensures recorded { at.old.is_in_key ≡ true → at.new.kept.items ≡ at.old.kept.items }
    ensures unrecorded { at.old.is_in_key ≡ false → at.new.kept.items ≡ take keys.now.begun at.old.kept.items }
{
    if !at.is_in_key {
        at.kept.truncate(keys.begun);
    }
}
