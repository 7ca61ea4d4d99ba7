use base_types::{BotName, ListOf, QueueList, Text, TextList};
use event_model::Fields;
use expert_modify::ModifyRules;
use module_settings::Table;
use scalar_net::Network;
use sieve_tree::Sieve;

pub type NamesList = ListOf<TextList>;

/// A path of a bot, and the queues that it leads to.
#[derive(Debug, Drop)]
pub struct Route {
    pub path: Text,
    pub queues: QueueList,
}

pub type RouteList = ListOf<Route>;

/// A module with its parameters.
#[derive(Debug, Drop)]
pub enum Module {
    Collector {
        file: Text,
        /// The `feed.name` of its reports.
        name: Text,
        /// The `feed.provider` of its reports.
        provider: Option<Text>,
        /// In bytes.
        chunk_size: u32,
        /// Whether each piece of a feed begins with the feed's first line.
        replicate: bool,
    },
    Csv {
        /// The names of each column.
        columns: NamesList,
        delimiter: u8,
        skip_header: bool,
        /// The fields of an event that lacks them.
        defaults: Fields,
        /// Whether a time may be a number of seconds since 1970.
        stamp: bool,
    },
    Json {
        /// `object`, `array` or `lines`.
        style: Text,
        /// The fields of an event that lacks them.
        defaults: Fields,
    },
    /// What it does with events. Each of its paths is one of the bot's.
    Sieve(Sieve),
    Dedup {
        /// The names of the fields that count, or of those that don't.
        keys: TextList,
        /// Whether these fields count and no others, or all others.
        keep: bool,
        /// In seconds.
        ttl: u64,
        /// How many events are kept in mind at most.
        cache_max: u32,
    },
    Prefix {
        /// Networks, and what each of them sets.
        table: Table,
        /// Whether fields that are there are set too.
        overwrite: bool,
    },
    Taxonomy,
    Modify {
        rules: ModifyRules,
        /// Whether fields that are there are set too.
        overwrite: bool,
        /// After how many rules that matched no other is tried; 0 where that has no limit.
        most: u32,
    },
    Output,
}

/// A bot with its checked parameters.
#[derive(Debug, Drop)]
pub struct Planned {
    pub bot: BotName,
    pub module: Module,
    pub instances: u8,
    /// How often a message is tried again.
    pub retries: u32,
    /// The time between two tries, in seconds.
    pub delay: u64,
    /// Whether a message that failed halts the bot.
    pub stop: bool,
    /// In byte order of the paths.
    pub paths: RouteList,
}

pub type PlannedList = ListOf<Planned>;

/// The bots of a bundle, in byte order of their names.
#[derive(Debug, Drop)]
pub struct Plan {
    pub bots: PlannedList,
}
