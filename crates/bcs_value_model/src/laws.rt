//! Laws about sameness, distinct keys and fitting. Each one is the contract of a function with an empty body.
ghost use Rattle.bcs_value_model.specs.Laws.{FitsStrictlyThenLoosely, GrowthKeepsFitting, MapsWithDistinctKeys, SameHaveSameFormats, SameIsReflexive, SameIsSymmetric, SameIsTransitive, SameMaps};

/// Sameness is an equivalence relation.
pub fn same_is_equivalence()
    ensures reflexive { SameIsReflexive }
    ensures symmetric { SameIsSymmetric }
    ensures transitive { SameIsTransitive }
{}

/// Maps are the same exactly if each entry of either has one with the same key and the same value in the other.
pub fn same_maps()
    ensures { SameMaps }
{}

/// A map has distinct keys exactly if no two of its keys are the same, and the maps in its entries have distinct keys.
pub fn maps_with_distinct_keys()
    ensures { MapsWithDistinctKeys }
{}

/// A value that fits strictly also fits loosely.
pub fn fits_strictly_then_loosely()
    ensures { FitsStrictlyThenLoosely }
{}

/// Values that are the same fit the same formats.
pub fn same_have_same_formats()
    ensures { SameHaveSameFormats }
{}

/// A value that fits, strictly or loosely, still fits when the registry grows.
pub fn growth_keeps_fitting()
    ensures { GrowthKeepsFitting }
{}
