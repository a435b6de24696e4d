//! Laws about escaped text. Each law is the contract of a function with an empty body.
ghost use Rattle.bcs_display_text.specs.Laws.{EscapedIsPrintable};

/// Escaped text contains only printable ASCII, so it can't send control characters to a terminal.
pub fn escaped_is_printable()
    ensures { EscapedIsPrintable }
{}
