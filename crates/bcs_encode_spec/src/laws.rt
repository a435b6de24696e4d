//! Laws about the bytes of values. Each one is the contract of a function with an empty body.
ghost use Rattle.bcs_encode_spec.specs.Entries.{SortedEntries, EqualNeighboursRepeat};
ghost use Rattle.bcs_encode_spec.specs.Laws.{BytesDecide, GrowthKeepsBytes, GrowthKeepsEncodings, GrowthKeepsOrder, GrowthKeepsSoundness, OneCanonicalForm, OneRefusal, PrefixFree, RefusedOrSound};

/// No encoding is a prefix of another encoding of the same format.
pub fn prefix_free()
    ensures { PrefixFree }
{}

/// Each value with distinct keys has exactly one canonical form. It keeps distinct keys, depth, nodes and lengths.
pub fn one_canonical_form()
    ensures { OneCanonicalForm }
{}

/// Sound values are the same exactly if their encodings are equal.
pub fn bytes_decide()
    ensures { BytesDecide }
{}

/// Sorting the encoded entries of a map by the bytes of their keys gives the bytes of its canonical form.
pub fn sorted_entries()
    ensures { SortedEntries }
{}

/// If two neighbours among the sorted entries have the same key, the map has a repeated key.
pub fn equal_neighbours_repeat()
    ensures { EqualNeighboursRepeat }
{}

/// A value is refused for at most one reason.
pub fn one_refusal()
    ensures { OneRefusal }
{}

/// Each value is either sound or refused, and never both.
pub fn refused_or_sound()
    ensures { RefusedOrSound }
{}

/// A sound value stays sound when the registry grows.
pub fn growth_keeps_soundness()
    ensures { GrowthKeepsSoundness }
{}

/// A value keeps its bytes when the registry grows.
pub fn growth_keeps_bytes()
    ensures plain { GrowthKeepsBytes }
    ensures encodings { GrowthKeepsEncodings }
{}

/// A canonical value stays canonical when the registry grows.
pub fn growth_keeps_order()
    ensures { GrowthKeepsOrder }
{}
