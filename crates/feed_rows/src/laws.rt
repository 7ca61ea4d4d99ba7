ghost use Rattle.feed_rows.specs.Laws.{ContentReadsBack, DefaultsFillGaps};

/// A field that fills a gap never replaces one that is there.
pub fn defaults_fill_gaps()
    ensures { DefaultsFillGaps }
{}

/// The content that a report is given is the content that it has.
pub fn content_reads_back()
    ensures { ContentReadsBack }
{}
