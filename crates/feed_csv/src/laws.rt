ghost use Rattle.feed_csv.specs.Laws.{BadLinesAreKept, EmptyLinesAreSkipped, NoneIsLost};

/// The events, the bad parts and the empty lines of a report are all its lines behind the header, in order.
pub fn none_is_lost()
    ensures { NoneIsLost }
{}

/// A line is skipped exactly where it is empty but for its end.
pub fn empty_lines_are_skipped()
    ensures { EmptyLinesAreSkipped }
{}

/// A bad part of a report has the header and that whole line as its content.
pub fn bad_lines_are_kept()
    ensures { BadLinesAreKept }
{}
