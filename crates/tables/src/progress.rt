//! How far a table is.
use std::alloc::{AllocError, Global};

/// The case at which a table is, what is to be answered to it, and how much there was so far.
#[derive(Drop)]
pub struct Progress {
    case: String,
    wanted: String,
    cases: u64,
    lines: u64,
}

impl Progress {
    /// The front of a table, as a heading to which nothing is to be answered.
    pub fn new(alloc: Global) -> Progress {
        Progress {
            case: String::new(alloc),
            wanted: String::new(alloc),
            cases: 0,
            lines: 0,
        }
    }

    /// How many cases there were so far.
    pub fn cases(&self) -> u64 {
        self.cases
    }

    /// How many lines were to be answered so far.
    pub fn lines(&self) -> u64 {
        self.lines
    }

    pub fn case(&self) -> &str {
        self.case.as_str()
    }

    /// What is to be answered, each line with its newline.
    pub fn wanted(&self) -> &str {
        self.wanted.as_str()
    }

    /// Goes on to a case, or to a heading.
    pub fn begin(&mut self, case: &str) -> Result<(), AllocError> {
        self.case.clear();
        self.wanted.clear();
        self.case.push_str(case)?;
        if !is_heading(case) {
            self.cases = self.cases.saturating_add(1);
        }
        Ok(())
    }

    /// A further line is to be answered.
    pub fn want(&mut self, line: &str) -> Result<(), AllocError> {
        self.lines = self.lines.saturating_add(1);
        push_line(&mut self.wanted, line)
    }
}

/// Whether a line only tells of those below it.
pub fn is_heading(line: &str) -> bool {
    line.is_empty() || line.starts_with('#')
}

/// A text each of whose lines has its newline.
pub fn in_lines(alloc: Global, text: &str) -> Result<String, AllocError> {
    let mut lines = String::new(alloc);
    for line in text.lines() {
        push_line(&mut lines, line)?;
    }
    Ok(lines)
}

fn push_line(text: &mut String, line: &str) -> Result<(), AllocError> {
    text.push_str(line)?;
    text.push_str("\n")
}
