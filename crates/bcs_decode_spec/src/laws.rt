//! Laws about decoding, for use in proofs. Each one is the contract of a function with an empty body.
ghost use Rattle.bcs_decode_spec.specs.Laws.{AcceptedIsEncoded, AcceptsOnce, EncodedIsAccepted, ExactDecoding, GrowthKeepsAccepting, GrowthKeepsStops, GrowthKeepsStopsAll, NoTwoVerdicts, NoTwoVerdictsOfAll, SomeVerdict, SomeVerdictOfAll, StopsAllOnce, StopsOnce, VerdictIsStable};

/// Bytes start with a value, or decoding them stops.
pub fn some_verdict()
    ensures { SomeVerdict }
{}

/// Bytes that start with a value have no stop.
pub fn no_two_verdicts()
    ensures { NoTwoVerdicts }
{}

/// Bytes start with at most one value.
pub fn accepts_once()
    ensures { AcceptsOnce }
{}

/// Bytes have at most one stop, with one reason and one place.
pub fn stops_once()
    ensures { StopsOnce }
{}

/// A whole input is the encoding of a value, or decoding it stops.
pub fn some_verdict_of_all()
    ensures { SomeVerdictOfAll }
{}

/// A whole input that is the encoding of a value has no stop.
pub fn no_two_verdicts_of_all()
    ensures { NoTwoVerdictsOfAll }
{}

/// A whole input has at most one stop, with one reason and one place.
pub fn stops_all_once()
    ensures { StopsAllOnce }
{}

/// Appending bytes changes the verdict only if it was `EndOfInput`, whose place is the end of the input.
pub fn verdict_is_stable()
    ensures { VerdictIsStable }
{}

/// A whole input that is accepted is the encoding of the accepted value.
pub fn accepted_is_encoded()
    ensures { AcceptedIsEncoded }
{}

/// The encoding of a value is accepted, and decodes to its canonical form.
pub fn encoded_is_accepted()
    ensures { EncodedIsAccepted }
{}

/// A whole input is accepted exactly if it encodes some value, and the accepted value is the same as that one.
pub fn exact_decoding()
    ensures { ExactDecoding }
{}

/// When the registry grows, accepted bytes stay accepted, with the same value and the same length.
pub fn growth_keeps_accepting()
    ensures { GrowthKeepsAccepting }
{}

/// When the registry grows, a stop in an admitted format stays, except `UnknownVariant`: the variant may be new.
pub fn growth_keeps_stops()
    ensures front { GrowthKeepsStops }
    ensures whole { GrowthKeepsStopsAll }
{}
