//! Laws of parts, for proofs to cite. The functions do nothing.
ghost use Rattle.bcs_decode_parts.specs.PartLaws.{GrowthKeepsParts, KeyLeadsToOne, PartStands};

/// The bytes of a part are in the whole encoding, at its place.
pub fn part_stands()
    ensures { PartStands }
{}

/// A key leads to one entry of a canonical map: no other entry has the same encoded key.
pub fn key_leads_to_one()
    ensures { KeyLeadsToOne }
{}

/// A path leads to the same part, with the same place and bytes, in every registry that the value's registry grows to.
pub fn growth_keeps_parts()
    ensures { GrowthKeepsParts }
{}
