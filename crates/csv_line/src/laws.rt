ghost use Rattle.csv_line.specs.Plain.{PlainLinesAreSplit};

/// A plain line is one record, of the fields between its delimiters.
pub fn plain_lines_are_split()
    ensures { PlainLinesAreSplit }
{}
