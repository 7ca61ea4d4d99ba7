//! Rows of tables.
use std::alloc::Global;
use std::test::Fail;

/// The name of a row, for the message of a check that fails: what is tried, at which number, and how.
pub fn row_text(alloc: Global, what: &str, at: u64, how: &str) -> Result<String, Fail> {
    let mut row = String::new(alloc);
    write!(row, "{what} {at}: {how}")?;
    Ok(row)
}
