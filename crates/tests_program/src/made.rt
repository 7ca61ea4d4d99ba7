//! Feeds that are made as they are read, so that they may be longer than memory.

const SPACES: [u8; 16384] = [b' '; 16384];

/// A line, so many times: what it begins with, so many spaces, and what it ends with.
pub struct Lines {
    pub head: &'static [u8],
    pub spaces: u64,
    pub tail: &'static [u8],
    pub times: u64,
}

// What is left from an offset on, as far as it lies in one place.
fn rest(bytes: &'static [u8], at: u64) -> &'static [u8] {
    let len = bytes.len();
    if at < len as u64 {
        &bytes[at as usize..]
    } else {
        b""
    }
}

impl Lines {
    fn len(&self) -> u64 {
        (self.head.len() as u64)
            .saturating_add(self.spaces)
            .saturating_add(self.tail.len() as u64)
    }

    // Some of the bytes of the line from an offset on, and nothing behind its end.
    fn bytes_at(&self, at: u64) -> &'static [u8] {
        let head = self.head.len() as u64;
        if at < head {
            return rest(self.head, at);
        }
        let behind = at - head;
        if behind < self.spaces {
            return rest(
                &SPACES,
                (SPACES.len() as u64).saturating_sub(self.spaces - behind),
            );
        }
        rest(self.tail, behind - self.spaces)
    }
}

/// Some of the bytes of a feed from an offset on.
pub fn bytes_at(feed: &'static [Lines], at: u64) -> &'static [u8] {
    let mut behind = at;
    for lines in feed {
        let all = lines.len().saturating_mul(lines.times);
        if behind < all {
            return match behind.checked_rem(lines.len()) {
                Some(at) => lines.bytes_at(at),
                None => b"",
            };
        }
        behind -= all;
    }
    b""
}
