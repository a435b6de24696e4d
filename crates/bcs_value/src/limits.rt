//! Limits on the size of a value.
ghost use Rattle.std.specs.Prelude.{◌≡◌, ◌≤◌, ◌<◌, ◌↔◌, None, IfSome};

use std::marker::Model;

/// The greatest depth that `Limits` allow.
const DEPTH_LIMIT: u32 = 500;

/// The greatest number of containers open at once (depth, at most 500), and the greatest number of nodes of a value.
#[derive(Clone, Copy, Debug)]
pub struct Limits {
    depth: u32,
    nodes: u32,
}

impl Model for Limits {
    ghost use Rattle.std.specs.Prelude.{◌≤◌};
    ghost use Rattle.bcs_value_model.specs.Limits.{Bounds};

    ghost Value = { Bounds };

    ghost view = { λ l. record { depth = l.depth; nodes = l.nodes } };

    ghost invariant = { λ l. l.depth ≤ 500 };

    ghost inverse = { λ b. record { depth = b.depth; nodes = b.nodes } };
}

impl Limits {
    /// Creates limits. Returns `None` exactly if `depth` is above 500.
    pub fn new(depth: u32, nodes: u32) -> Option<Limits>
        ensures some { IfSome result (λ l. (l.depth ≡ depth) × (l.nodes ≡ nodes)) }
        ensures none { result ≡ None ↔ 500 < depth }
    {
        if depth > DEPTH_LIMIT {
            None
        } else {
            Some(Limits { depth, nodes })
        }
    }

    /// The standard limits: 500 open containers, and 4294967295 nodes.
    pub const fn standard() -> Limits
        ensures depth { result.depth ≡ 500 }
        ensures nodes { result.nodes ≡ 4294967295 }
    {
        Limits {
            depth: DEPTH_LIMIT,
            nodes: u32::MAX,
        }
    }

    /// The greatest number of containers that may be open at once.
    pub fn depth(&self) -> u32
        ensures is { result ≡ self.now.depth }
        ensures bound { self.now.depth ≤ 500 }
    {
        self.depth
    }

    /// The greatest number of nodes.
    pub fn nodes(&self) -> u32
        ensures is { result ≡ self.now.nodes }
    {
        self.nodes
    }
}
