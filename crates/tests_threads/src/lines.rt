//! Lines in any order.

fn times(line: &[u8], text: &[u8]) -> usize {
    let mut found = 0usize;
    for other in text.split(|byte| *byte == b'\n') {
        if other == line {
            found = found.saturating_add(1);
        }
    }
    found
}

/// Whether two texts have the same lines, each as often, in some order.
pub fn are_same_lines(one: &[u8], other: &[u8]) -> bool {
    one.len() == other.len()
        && one
            .split(|byte| *byte == b'\n')
            .all(|line| times(line, one) == times(line, other))
}
