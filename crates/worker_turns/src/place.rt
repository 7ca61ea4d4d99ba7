use collector_feeds::Found;
use step_code::FeedFacts;

/// A place of its feed at which a collector looks, under the bundle of this number.
#[derive(Debug, Drop)]
pub struct Place {
    pub bundle: u64,
    /// Offset in the feed, in bytes.
    pub at: u64,
    pub facts: FeedFacts,
    /// How often a read that fails is tried again.
    pub retries: u32,
}

/// What was found at a place of a feed.
#[derive(Debug, Drop)]
pub struct Sight {
    pub place: Place,
    pub found: Found,
}
