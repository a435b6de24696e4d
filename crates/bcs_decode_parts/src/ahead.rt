//! The rest of an encoding, with the limits for the value in it.
ghost use Rattle.std.specs.Prelude.{◌≡◌, List, ℕ, ◌++◌};

/// The bytes from a value on, how many containers may still open in the value, and how many nodes it may have.
#[derive(Clone, Copy)]
pub struct Ahead<'a> {
    pub bytes: &'a [u8],
    pub depth: u32,
    pub nodes: u32,
}

impl<'a> Ahead<'a> {
    /// The same limits for other bytes.
    pub fn at(&self, bytes: &'a [u8]) -> Ahead<'a>
        ensures bytes { result.bytes.now ≡ bytes.now }
        ensures depth { result.depth ≡ self.now.depth }
        ensures nodes { result.nodes ≡ self.now.nodes }
    {
        Ahead {
            bytes,
            depth: self.depth,
            nodes: self.nodes,
        }
    }
}

/// The bytes before `rest`, which must be at the end of `bytes`.
pub fn bytes_before<'a>(bytes: &'a [u8], rest: &[u8]) -> &'a [u8]
    ensures { (front : List ℕ) → bytes.now ≡ front ++ rest.now → result.now ≡ front }
{
    let (front, _) = bytes.split_at(bytes.len().saturating_sub(rest.len()));
    front
}
