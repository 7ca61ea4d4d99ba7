//! How far a long command is: a line on a terminal.

use base_types::Text;
use std::fmt::{self, Display, Formatter};
use std::rt;
use std::sync::atomic::{AtomicU64, Ordering};
use std::time::{SystemTime, UNIX_EPOCH};

// Longer names are left out, and those that a terminal wouldn't show as they are, so that the line stays one.
const LONGEST_NAME: usize = 40;

fn fits_line(name: &Text) -> bool {
    name.bytes().len() <= LONGEST_NAME && name.bytes().iter().all(|byte| *byte >= b' ')
}

/// How far a command is: one line on standard error, which is written anew each second. Nothing is written where nobody looks at it, nor
/// in the first second.
#[derive(Drop)]
pub struct Progress<'a, R> {
    system: &'a R,
    is_shown: bool,
    // When the command began, in seconds since 1970.
    began: u64,
    // When the line was written last; else when the command began.
    told: AtomicU64,
    steps: AtomicU64,
    // How many bytes of the store were read.
    looked: AtomicU64,
}

impl<'a, R: rt::Clock + Eprint> Progress<'a, R> {
    pub fn new(system: &'a R, is_shown: bool) -> Self {
        let began = seconds(system);
        Progress {
            system,
            is_shown,
            began,
            told: AtomicU64::new(began),
            steps: AtomicU64::new(0),
            looked: AtomicU64::new(0),
        }
    }

    /// The feed of this name was read to this offset.
    pub fn read_feed(&self, name: &Text, at: u64) {
        if self.is_shown {
            self.tell(1, Some(Reading { name, at }));
        }
    }

    /// A step is made.
    pub fn make_step(&self) {
        if self.is_shown {
            self.steps.fetch_add(1, Ordering::Relaxed);
            // The reads of a feed tell its name too, so they go first.
            self.tell(2, None);
        }
    }

    /// So many bytes of the store were read.
    pub fn read_store(&self, bytes: u64) {
        if self.is_shown {
            self.looked.fetch_add(bytes, Ordering::Relaxed);
            self.tell(1, None);
        }
    }

    /// Takes the line away, if it is there.
    pub fn clear(&self) {
        if self.told.load(Ordering::Relaxed) != self.began {
            self.told.store(self.began, Ordering::Relaxed);
            // Nothing is left to tell of a failure here.
            let _ = eprint!(self.system; "{CLEARED}");
        }
    }

    // Writes the line, so many seconds after it was written last. Of several threads one does.
    fn tell(&self, rest: u64, feed: Option<Reading<'_>>) {
        let now = seconds(self.system);
        let told = self.told.load(Ordering::Relaxed);
        if now < told.saturating_add(rest) || !self.is_first(told, now) {
            return;
        }
        let line = Line {
            feed,
            steps: self.steps.load(Ordering::Relaxed),
            looked: self.looked.load(Ordering::Relaxed),
            seconds: now.saturating_sub(self.began),
        };
        let _ = eprint!(self.system; "{CLEARED}{line}");
    }

    // Whether no other thread has told since then. Then this one tells now.
    fn is_first(&self, told: u64, now: u64) -> bool {
        self.told
            .compare_exchange(told, now, Ordering::Relaxed, Ordering::Relaxed)
            .is_ok()
    }
}

// Goes to the start of the terminal's line, and takes away what stands there.
const CLEARED: &str = "\r\x1b[K";

// The seconds since 1970; 0 where the system tells no time.
fn seconds(system: &impl rt::Clock) -> u64 {
    let Ok(now) = SystemTime::now(system) else {
        return 0;
    };
    now.duration_since(UNIX_EPOCH)
        .map_or(0, |time| time.as_secs())
}

// How far a feed was read.
#[derive(Drop)]
struct Reading<'t> {
    name: &'t Text,
    at: u64,
}

impl Display for Reading<'_> {
    fn fmt<W: fmt::Write>(&self, f: &mut Formatter<W>) -> fmt::Result {
        if fits_line(self.name) {
            write!(f, "{} ", self.name.as_str())?;
        }
        write!(f, "{} bytes", self.at)
    }
}

// What the line says.
#[derive(Drop)]
struct Line<'t> {
    feed: Option<Reading<'t>>,
    steps: u64,
    looked: u64,
    // Since the command began.
    seconds: u64,
}

impl Display for Line<'_> {
    fn fmt<W: fmt::Write>(&self, f: &mut Formatter<W>) -> fmt::Result {
        if let Some(feed) = &self.feed {
            write!(f, "{feed}, ")?;
        }
        if self.steps > 0 {
            let rate = self.steps / self.seconds.max(1);
            write!(f, "{} steps, {rate} a second, ", self.steps)?;
        } else if self.looked > 0 {
            write!(f, "{} bytes of the store, ", self.looked)?;
        }
        write!(f, "{} s", self.seconds)
    }
}
