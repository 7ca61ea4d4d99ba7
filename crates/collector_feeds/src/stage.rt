use crate::OpenFeed;
use edge_traits::Source;

/// How far a feed is open. What was fetched can't be dropped.
pub(crate) enum Stage<S: Source> {
    Closed,
    Open { feed: OpenFeed<S> },
}
