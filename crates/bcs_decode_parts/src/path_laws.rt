//! A law of paths, for proofs to cite. The function does nothing.
ghost use Rattle.bcs_decode_parts.specs.PathLaws.{OnePath};

/// A word spells at most one path.
pub fn one_path()
    ensures { OnePath }
{}
