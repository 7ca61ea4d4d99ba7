ghost use Rattle.std.specs.Prelude.{◌≡◌, IfOk};
ghost use Rattle.expert_rules.specs.Chosen.{chosen};

use base_types::{OutOfMemory, TextList};
use event_model::Fields;
use std::alloc::Global;

/// What makes two events duplicates, and for how long.
#[derive(Debug, Drop)]
pub struct DedupRule {
    /// The names of the fields that count, or of those that don't.
    pub keys: TextList,
    /// Whether these fields count and no others, or all others.
    pub keep: bool,
    /// For how many seconds an event's duplicates are dropped.
    pub ttl: u64,
    /// How many events are kept in mind at most.
    pub cache_max: u32,
}

/// The fields by which an event is told from others.
pub fn dedup_fields(alloc: Global, rule: &DedupRule, fields: &Fields) -> Result<Fields, OutOfMemory>
    ensures { IfOk result (λ counted. counted ≡ chosen rule.now fields.now) }
{
    fields.restrict(alloc, &rule.keys, rule.keep)
}
