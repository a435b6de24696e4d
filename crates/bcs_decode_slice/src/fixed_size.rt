//! The number of bytes and nodes that all values of a format share.
ghost use Rattle.std.specs.Prelude.{◌≡◌, ℕ, ◌+◌, ◌*◌, ◌<◌, ◌≤◌, ◌^◌, ◌⊎◌, None, IfSome};
ghost use Rattle.bcs_registry_model.specs.Container.{Entries};
ghost use Rattle.bcs_registry_model.specs.View.{shape_of};
ghost use Rattle.bcs_decode_slice.specs.Fixed.{IsFixed};

use bcs_decode_spec::integer_width::integer_width;
use bcs_registry_model::Format;

/// The number of bytes and of nodes of each value of a format.
#[derive(Clone, Copy)]
pub struct FixedSize {
    pub bytes: u64,
    pub nodes: u64,
}

/// A single node without bytes.
pub const NODE: FixedSize = FixedSize { bytes: 0, nodes: 1 };

impl FixedSize {
    /// The size of a value and the next one together. `None` if a sum exceeds 64 bits.
    pub fn followed_by(self, next: FixedSize) -> Option<FixedSize>
        ensures sum { IfSome result (λ z. (z.bytes ≡ self.bytes + next.bytes) × (z.nodes ≡ self.nodes + next.nodes)) }
        ensures none { result ≡ None → (2 ^ 64 ≤ self.bytes + next.bytes) ⊎ (2 ^ 64 ≤ self.nodes + next.nodes) }
    {
        Some(FixedSize {
            bytes: self.bytes.checked_add(next.bytes)?,
            nodes: self.nodes.checked_add(next.nodes)?,
        })
    }

    /// The size of `count` values. `None` if a product exceeds 64 bits.
    pub fn times(self, count: u64) -> Option<FixedSize>
        ensures product { IfSome result (λ z. (z.bytes ≡ count * self.bytes) × (z.nodes ≡ count * self.nodes)) }
        ensures none { result ≡ None → (2 ^ 64 ≤ count * self.bytes) ⊎ (2 ^ 64 ≤ count * self.nodes) }
    {
        Some(FixedSize {
            bytes: count.checked_mul(self.bytes)?,
            nodes: count.checked_mul(self.nodes)?,
        })
    }
}

/// The size of a format's values, if any bytes of that size encode a value.
pub fn whole_size(format: &Format) -> Option<FixedSize>
    ensures { IfSome result (λ z. (0 < z.nodes) × ((registry : Entries) (d : ℕ) → IsFixed registry d (shape_of format.now) z.bytes z.nodes)) }
{
    let width = integer_width(format)?;
    Some(FixedSize {
        bytes: width as u64,
        nodes: 1,
    })
}
