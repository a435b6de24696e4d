//! Laws about the lines of a text. Each one is the contract of a function with an empty body.
ghost use Rattle.bcs_io.specs.Laws.{LinesGiveTextBack, LinesHaveNoLineFeed};

/// The lines, each followed by a line feed, are the text, possibly with one more line feed at its end.
pub fn lines_give_text_back()
    ensures { LinesGiveTextBack }
{}

/// No line contains a line feed.
pub fn lines_have_no_line_feed()
    ensures { LinesHaveNoLineFeed }
{}
