use crate::Fields;

/// What a message is.
#[derive(Clone, Copy, Debug, PartialEq, Eq)]
pub enum Kind {
    /// What a collector makes of a piece of a feed.
    Report,
    /// One incident.
    Event,
}

/// A report or an event, with its fields.
#[derive(Debug, Drop)]
pub struct Message {
    pub kind: Kind,
    pub fields: Fields,
}
