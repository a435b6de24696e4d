//! Laws of spelling and of texts, for proofs to cite. The functions do nothing.
ghost use Rattle.bcs_json_spec.specs.Laws.{ArraySpellingStillSpells, DenotedIsNotRefused, DenotesOnce, EqualValuesEqualBytes, GrowthKeepsDenoting, GrowthKeepsShowing, GrowthKeepsSpelling, NormalTextIsStable, OnePlace, OneTree, OneVerdict, PlaceIsRefusedAlone, ShownBytesComeBack, ShownIsLowest, ShownIsReadBack, SomeNormalText, SomePlace, SpelledFits, TextDenotesOrIsRefused};

/// JSON spells at most one tree.
pub fn one_tree()
    ensures { OneTree }
{}

/// Within a limit of open containers, JSON either spells a tree or is refused, for exactly one reason.
pub fn one_verdict()
    ensures { OneVerdict }
{}

/// Refused JSON has at most one place.
pub fn one_place()
    ensures { OnePlace }
{}

/// The JSON at the place has the fault of the whole, and no part of it is refused.
pub fn place_is_refused_alone()
    ensures { PlaceIsRefusedAlone }
{}

/// Refused JSON has a place.
pub fn some_place()
    ensures { SomePlace }
{}

/// If JSON spells a tree, the tree fits the format.
pub fn spelled_fits()
    ensures { SpelledFits }
{}

/// The JSON that a tree is printed as nests no deeper than any JSON that spells it.
pub fn shown_is_lowest()
    ensures { ShownIsLowest }
{}

/// The JSON of a value spells it, and nests no deeper than any JSON that spells an equal value.
pub fn shown_is_read_back()
    ensures { ShownIsReadBack }
{}

/// A value is printed the same in every registry that its registry grows to.
pub fn growth_keeps_showing()
    ensures { GrowthKeepsShowing }
{}

/// A text denotes at most one value.
pub fn denotes_once()
    ensures { DenotesOnce }
{}

/// A text that denotes a value isn't refused.
pub fn denoted_is_not_refused()
    ensures { DenotedIsNotRefused }
{}

/// Two texts denote equal values (maps are finite maps) exactly if their bytes are equal.
pub fn equal_values_equal_bytes()
    ensures { EqualValuesEqualBytes }
{}

/// Normalising a normal form gives the same text.
pub fn normal_text_is_stable()
    ensures { NormalTextIsStable }
{}

/// Every value that a text denotes has a normal form, in a well-formed registry that was read from a text.
pub fn some_normal_text()
    ensures { SomeNormalText }
{}

/// Decoding bytes to a text and encoding it gives the same bytes.
pub fn shown_bytes_come_back()
    ensures { ShownBytesComeBack }
{}

/// What the older definition allows, with only arrays for lists and arrays of `U8`, is still allowed.
pub fn array_spelling_still_spells()
    ensures { ArraySpellingStillSpells }
{}

/// What JSON spells in a registry, it spells in every well-formed registry that this one grows to.
pub fn growth_keeps_spelling()
    ensures { GrowthKeepsSpelling }
{}

/// What a text denotes in a registry, it denotes in every well-formed registry that this one grows to.
pub fn growth_keeps_denoting()
    ensures { GrowthKeepsDenoting }
{}

/// In an orderly registry, each text either denotes a value or is refused, for exactly one reason.
pub fn text_denotes_or_is_refused()
    ensures { TextDenotesOrIsRefused }
{}
