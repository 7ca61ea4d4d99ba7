use base_types::TextList;
use event_model::Fields;

/// Where an event goes.
#[derive(Debug, Drop)]
pub enum Fate {
    /// On these paths.
    Forward(TextList),
    Dropped,
}

/// What a sieve makes of an event.
#[derive(Debug, Drop)]
pub struct Verdict {
    pub fields: Fields,
    pub fate: Fate,
}
