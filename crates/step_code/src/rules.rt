ghost use Rattle.std.specs.Prelude.{◌≡◌, ◌≤◌, ℕ, List, true, Some, None, IfOk, IsErrOf};
ghost use Rattle.base_types.specs.Lists.{AreBytes};
ghost use Rattle.step_code.specs.Rules.{Meaning, Task, IsLawful, IsPlanOf, is_collector, is_worker, bot_named, last_moment, AreSound, FitsBot};

use base_types::{
    Blob, BotName, FaultNote, ListOf, Moment, NoteList, OutOfMemory, QueueList, SendList, Text,
};
use std::alloc::Global;

/// What a bot is for.
#[derive(Clone, Copy, Debug, PartialEq, Eq)]
pub enum Role {
    Collector,
    Parser,
    Expert,
    Output,
}

/// How long a key counts as seen, in seconds, and how many keys are kept.
#[derive(Clone, Copy, Debug, PartialEq, Eq)]
pub struct CacheRule {
    pub ttl: u64,
    pub cache_max: u32,
}

/// The feed of a collector: the name of its file, the size in bytes that a piece aims at, and whether each piece begins
/// with the feed's first line.
#[derive(Debug, Drop)]
pub struct FeedFacts {
    pub file: Text,
    pub chunk_size: u32,
    pub replicate: bool,
}

/// What the pipeline has to know of a bot.
#[derive(Debug, Drop)]
pub struct Facts {
    pub bot: BotName,
    pub role: Role,
    pub instances: u8,
    /// How often a message is tried again after a fault.
    pub retries: u32,
    /// The pause before a message is tried again, in seconds, at most 86,400.
    pub delay: u64,
    /// Whether the bot is halted once it has given up on a message.
    pub stop: bool,
    /// The queues on the path `_default`.
    pub defaults: QueueList,
    /// The queues on the path `_on_error`.
    pub on_error: QueueList,
    /// There exactly for bots that drop duplicates.
    pub cache: Option<CacheRule>,
    /// There exactly for collectors.
    pub feed: Option<FeedFacts>,
}

pub type FactsList = ListOf<Facts>;

/// What a bot makes of a message.
#[derive(Debug, Drop)]
pub enum Given {
    /// The bodies that go on and their queues, the parts that could not be processed with their faults, the key by which
    /// the message is told from duplicates, and whether it is written to the bot's output.
    Pass {
        sends: SendList,
        dumps: NoteList,
        key: Option<Blob>,
        line: bool,
    },
    /// The message could not be processed.
    Fault(FaultNote),
}

/// Why a bundle gives no plan.
#[derive(Clone, Copy, Debug, PartialEq, Eq)]
pub enum PlanFault {
    Refused,
    OutOfMemory,
}

/// The modules of a pipeline: what a bundle's bots are, and what they do with messages.
pub trait Rules: Drop {
    ghost use Rattle.step_code.specs.declared.rules.Facts.{Facts};

    /// A bundle that is ready for use.
    type Plan: Drop;
    /// A bot of a plan that is ready for work.
    type Work: Drop;

    /// What the rules mean. It is the same for each value of the type.
    ghost meaning: { Meaning };

    /// The bundle of a plan, and its bots.
    ghost bundle_of: { Self.Plan → List ℕ };

    ghost bots_of: { Self.Plan → List Facts };

    ghost task_of: { Self.Work → Task };

    /// Makes a bundle ready for use.
    fn plan(&self, alloc: Global, bundle: &Blob) -> Result<Self::Plan, PlanFault>
        ensures plan { IfOk result (λ plan. (bundle_of plan ≡ bundle.now) × IsPlanOf meaning (bundle_of plan) (bots_of plan)) }
        ensures refused { IsErrOf result PlanFault.Refused → meaning.facts bundle.now ≡ None };

    /// The bots of the plan, in byte order of their names.
    fn facts<'p>(&self, plan: &'p Self::Plan) -> &'p FactsList
        ensures { result.now ≡ bots_of plan.now };

    /// The body of the report that a collector makes of a piece of its feed.
    fn report(
        &self,
        alloc: Global,
        plan: &Self::Plan,
        bot: &BotName,
        piece: &Blob,
        now: Moment,
    ) -> Result<Blob, OutOfMemory>
        requires plan { IsPlanOf meaning (bundle_of plan.now) (bots_of plan.now) }
        requires collector { is_collector (bots_of plan.now) bot.now ≡ true }
        requires moment { now.0 ≤ last_moment }
        ensures { IfOk result (λ body. body ≡ meaning.report (record { bundle = bundle_of plan.now; bot = bot.now }) piece.now now.0) };

    /// Makes a bot ready for work.
    fn work(
        &self,
        alloc: Global,
        plan: &Self::Plan,
        bot: &BotName,
    ) -> Result<Self::Work, OutOfMemory>
        requires plan { IsPlanOf meaning (bundle_of plan.now) (bots_of plan.now) }
        requires worker { is_worker (bots_of plan.now) bot.now ≡ true }
        ensures { IfOk result (λ work. task_of work ≡ record { bundle = bundle_of plan.now; bot = bot.now }) };

    /// What a bot makes of a body that it took at a moment.
    fn give(
        &self,
        alloc: Global,
        work: &mut Self::Work,
        body: &Blob,
        since: Moment,
    ) -> Result<Given, OutOfMemory>
        ensures given { IfOk result (λ given. given ≡ meaning.give (task_of work.old) body.now since.0) }
        ensures task { task_of work.new ≡ task_of work.old };

    /// Each bundle has bots within the limits.
    ghost bots_are_sound: { (bundle : List ℕ) (bots : List Facts) → meaning.facts bundle ≡ Some bots → AreSound bots };

    /// Reports of bytes are lawful.
    ghost reports_are_lawful: { (bots : List Facts) (task : Task) (piece : List ℕ) (now : ℕ)
        → meaning.facts task.bundle ≡ Some bots → is_collector bots task.bot ≡ true → AreBytes piece → now ≤ last_moment
        → IsLawful meaning (meaning.report task piece now) };

    /// What a bot gives fits it.
    ghost given_fits: { (bots : List Facts) (facts : Facts) (task : Task) (body : List ℕ) (since : ℕ)
        → meaning.facts task.bundle ≡ Some bots → bot_named task.bot bots ≡ Some facts
        → FitsBot meaning facts (meaning.give task body since) };
}
