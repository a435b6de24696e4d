//! The entries of a map in a buffer, and sorting them by the bytes of their keys.
ghost use Rattle.std.specs.Prelude.{◌≡◌, map};
ghost use Rattle.std.specs.List.Sorted.{IsPermutation, IsSortedByKey};
ghost use Rattle.std.specs.Ordering.{nat_cmp};
ghost use Rattle.std.specs.Cmp.Lexicographic.{slice_cmp};
ghost use Rattle.bcs_key_order.specs.Order.{has_equal_neighbours, is_below, keys_rise};
ghost use Rattle.bcs_key_order.specs.Spans.{Ordered, lone_key_at, part as spec_part};

/// An entry in a buffer, as byte offsets: its key is from `start` to `end`, and its value from `end` to `value`.
#[derive(Clone, Copy)]
pub struct Span {
    pub start: usize,
    pub end: usize,
    pub value: usize,
}

/// The bytes from `from` to `to`, or none if they aren't a valid range.
pub fn part(bytes: &[u8], from: usize, to: usize) -> &[u8]
    ensures { result.now ≡ spec_part bytes.now from to }
{
    if from <= to && to <= bytes.len() {
        &bytes[from..to]
    } else {
        &[]
    }
}

/// Whether the keys ascend. If so, entries aren't copied; for nested maps that would cost a copy at each level.
pub fn rise(spans: &[Span], bytes: &[u8]) -> bool
    ensures { result ≡ keys_rise (map (lone_key_at bytes.now) spans.now) }
{
    for i in 1..spans.len() {
        if !rises(spans[i - 1], spans[i], bytes) {
            return false;
        }
    }
    true
}

/// Whether the key of `entry` is above that of `before`.
pub fn rises(before: Span, entry: Span, bytes: &[u8]) -> bool
    ensures { result ≡ is_below (spec_part bytes.now before.start before.end) (spec_part bytes.now entry.start entry.end) }
{
    let key = part(bytes, entry.start, entry.end);
    part(bytes, before.start, before.end).cmp(key).is_lt()
}

/// Sorts the spans by the bytes of their keys, and returns whether all keys are distinct.
pub fn sort(spans: &mut [Span], bytes: &[u8]) -> bool
    ensures moved { IsPermutation spans.old spans.new }
    ensures order { Ordered result bytes.now spans.new }
{
    sort_by_keys(spans, bytes);
    !have_equal_neighbours(spans, bytes)
}

fn sort_by_keys(spans: &mut [Span], bytes: &[u8])
    ensures permutation { IsPermutation spans.old spans.new }
    ensures sorted { IsSortedByKey (λ z. spec_part bytes.now z.start z.end) (slice_cmp nat_cmp) spans.new }
{
    spans.sort_unstable_by(|a, b| { part(bytes, a.start, a.end).cmp(part(bytes, b.start, b.end)) });
}

/// Whether two neighbours have the same key.
fn have_equal_neighbours(spans: &[Span], bytes: &[u8]) -> bool
    ensures { result ≡ has_equal_neighbours (map (lone_key_at bytes.now) spans.now) }
{
    for i in 1..spans.len() {
        let before = spans[i - 1];
        let span = spans[i];
        if part(bytes, before.start, before.end) == part(bytes, span.start, span.end) {
            return true;
        }
    }
    false
}
