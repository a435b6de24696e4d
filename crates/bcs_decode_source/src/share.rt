//! How many values are read in one block.
ghost use Rattle.std.specs.Prelude.{◌≡◌, ◌*◌, ◌≤◌, ◌⊎◌};

use bcs_num::GREATEST_LEN;

/// The length of a block in bytes.
pub const BLOCK: usize = 512;

/// How many of the remaining values are in the next block, if `nodes` may begin. Values without bytes all fit into one.
pub fn share(width: usize, left: u64, nodes: u32) -> u32
    requires small { width ≤ GREATEST_LEN }
    ensures left { result ≤ left }
    ensures nodes { result ≤ nodes }
    ensures room { result * width ≤ 512 }
    ensures none { result ≡ 0 → (left ≡ 0) ⊎ (nodes ≡ 0) }
{
    let room = if width == 0 {
        nodes
    } else {
        (BLOCK / width) as u32
    };
    left.min(u64::from(nodes.min(room))) as u32
}
