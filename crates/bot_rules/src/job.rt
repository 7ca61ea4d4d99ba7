use crate::Change;
use expert_rules::DedupRule;
use feed_csv::CsvRule;
use feed_json::JsonRule;
use runtime_config::RouteList;
use sieve_eval::Prepared;

/// A sieve that is ready for events, and the bot's paths.
#[derive(Drop)]
pub struct SieveJob {
    pub sieve: Prepared,
    pub routes: RouteList,
}

/// What a bot does with messages, made once for all of them.
#[derive(Drop)]
pub enum Job {
    Csv(CsvRule),
    Json(JsonRule),
    Sieve(SieveJob),
    Dedup(DedupRule),
    /// It makes one event of one.
    Change(Change),
    Output,
}
