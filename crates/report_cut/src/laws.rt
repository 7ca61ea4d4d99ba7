ghost use Rattle.report_cut.specs.Laws.{PiecesMakeUpFeed, PiecesHaveLines, RunsAreLongest, AnySlices};

/// The pieces of a feed without their headers, joined, are the feed; each but the last ends with a newline; the
/// offsets rise.
pub fn pieces_make_up_feed()
    ensures { PiecesMakeUpFeed }
{}

/// The lines of the pieces are the lines of the feed, in order: none is lost, and none is cut apart.
pub fn pieces_have_lines()
    ensures { PiecesHaveLines }
{}

/// The lines of a piece are the longest run of next lines that has room, and at least one line.
pub fn runs_are_longest()
    ensures { RunsAreLongest }
{}

/// However a feed is cut into slices, a cutter that is fed them hands out the feed's pieces, and answers its long line.
pub fn any_slices()
    ensures { AnySlices }
{}
