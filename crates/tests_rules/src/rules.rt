//! Rules for the tests, with three bundles.
ghost use Rattle.std.specs.Prelude.{◌≡◌, ◌∷◌, ◌++◌, [], IfOk};
ghost use Rattle.tests_rules.specs.Tiny.{bad_parts, begins_with, bots_of_bundle, cache_rule, collector, deduplicator, feed_facts, first_collector, given_by, is_bad, is_faulty, note, other_bots, parser, passed_by, plain_bot, report, strict_deduplicator, thin_bots, tiny_bots, writer};

use base_types::{
    Blob, BotName, FaultNote, Moment, NoteList, OutOfMemory, QueueList, QueueName, SendList, Text,
};
use std::alloc::Global;
use std::marker::Model;
use step_code::{CacheRule, Facts, FactsList, FeedFacts, Given, PlanFault, Role, Rules, bot_named};

/// Rules that know the bundles `thin`, `tiny` and `other`.
#[derive(Clone, Copy, Debug)]
pub struct TinyRules;

/// A bundle and its bots.
#[derive(Debug, Drop)]
pub struct TinyPlan {
    bundle: Blob,
    bots: FactsList,
}

/// A bot of a bundle, and its role.
#[derive(Debug, Drop)]
pub struct TinyWork {
    bundle: Blob,
    bot: BotName,
    role: Role,
}

impl Model for TinyWork {
    ghost use Rattle.std.specs.Prelude.{◌≡◌, Some, option_map};
    ghost use Rattle.step_code.specs.Rules.{Task};
    ghost use Rattle.tests_rules.specs.Tiny.{bot_of};

    ghost Value = { Task };

    ghost view = { λ w. record { bundle = w.bundle; bot = w.bot } };

    ghost invariant = { λ w. option_map (λ f. f.role) (bot_of (record { bundle = w.bundle; bot = w.bot })) ≡ Some w.role };
}

fn text(alloc: Global, bytes: &[u8]) -> Result<Text, OutOfMemory>
    ensures { IfOk result (λ text. text ≡ bytes.now) }
{
    match Text::new(alloc, bytes) {
        Ok(text) => Ok(text),
        Err(_) => Err(OutOfMemory),
    }
}

fn queue(bytes: &[u8]) -> Result<QueueName, OutOfMemory>
    ensures { IfOk result (λ queue. queue ≡ bytes.now) }
{
    match QueueName::new(bytes) {
        Ok(queue) => Ok(queue),
        Err(_) => Err(OutOfMemory),
    }
}

fn plain_bot(
    name: &[u8],
    role: Role,
    alloc: Global,
    defaults: QueueList,
) -> Result<Facts, OutOfMemory>
    ensures { IfOk result (λ f. f ≡ plain_bot name.now role defaults) }
{
    let Ok(bot) = BotName::new(name) else {
        return Err(OutOfMemory);
    };
    Ok(Facts {
        bot,
        role,
        instances: 1,
        retries: 3,
        delay: 0,
        stop: false,
        defaults,
        on_error: QueueList::new(alloc),
        cache: None,
        feed: None,
    })
}

fn one_queue(alloc: Global, name: &[u8]) -> Result<QueueList, OutOfMemory>
    ensures { IfOk result (λ queues. queues ≡ name.now ∷ []) }
{
    Ok(QueueList::from(vec![in alloc; queue(name)?]?))
}

fn two_queues(alloc: Global, first: &[u8], second: &[u8]) -> Result<QueueList, OutOfMemory>
    ensures { IfOk result (λ queues. queues ≡ first.now ∷ second.now ∷ []) }
{
    Ok(QueueList::from(vec![in alloc; queue(first)?, queue(second)?]?))
}

// A collector of this name that reads this file.
fn collector(
    name: &[u8],
    file: &[u8],
    alloc: Global,
    defaults: QueueList,
) -> Result<Facts, OutOfMemory>
    ensures { IfOk result (λ f. f ≡ collector name.now file.now defaults) }
{
    let mut facts = plain_bot(name, Role::Collector, alloc, defaults)?;
    facts.feed = Some(FeedFacts {
        file: text(alloc, file)?,
        chunk_size: 64,
        replicate: false,
    });
    Ok(facts)
}

fn first_collector(alloc: Global, defaults: QueueList) -> Result<Facts, OutOfMemory>
    ensures { IfOk result (λ f. f ≡ first_collector defaults) }
{
    collector(b"collect", b"feed.csv", alloc, defaults)
}

fn deduplicator(alloc: Global) -> Result<Facts, OutOfMemory>
    ensures { IfOk result (λ f. f ≡ deduplicator) }
{
    let mut facts = plain_bot(
        b"dedup",
        Role::Expert,
        alloc,
        one_queue(alloc, b"write-queue")?,
    )?;
    facts.cache = Some(CacheRule {
        ttl: 60,
        cache_max: 2,
    });
    Ok(facts)
}

fn strict_deduplicator(alloc: Global) -> Result<Facts, OutOfMemory>
    ensures { IfOk result (λ f. f ≡ strict_deduplicator) }
{
    let mut facts = deduplicator(alloc)?;
    facts.instances = 2;
    facts.retries = 1;
    facts.stop = true;
    facts.on_error = two_queues(alloc, b"write-queue", b"store-queue")?;
    Ok(facts)
}

fn parser(alloc: Global) -> Result<Facts, OutOfMemory>
    ensures { IfOk result (λ f. f ≡ parser) }
{
    let mut facts = plain_bot(
        b"parse",
        Role::Parser,
        alloc,
        one_queue(alloc, b"dedup-queue")?,
    )?;
    facts.instances = 2;
    Ok(facts)
}

fn writer(alloc: Global, name: &[u8]) -> Result<Facts, OutOfMemory>
    ensures { IfOk result (λ f. f ≡ writer name.now) }
{
    plain_bot(name, Role::Output, alloc, QueueList::new(alloc))
}

fn thin_bots(alloc: Global) -> Result<FactsList, OutOfMemory>
    ensures { IfOk result (λ bots. bots ≡ thin_bots) }
{
    let collector = first_collector(alloc, one_queue(alloc, b"write-queue")?)?;
    let writer = writer(alloc, b"write")?;
    Ok(FactsList::from(vec![in alloc; collector, writer]?))
}

fn tiny_bots(alloc: Global) -> Result<FactsList, OutOfMemory>
    ensures { IfOk result (λ bots. bots ≡ tiny_bots) }
{
    let collector = first_collector(alloc, two_queues(alloc, b"parse-queue", b"write-queue")?)?;
    let deduplicator = deduplicator(alloc)?;
    let parser = parser(alloc)?;
    let writer = writer(alloc, b"write")?;
    Ok(FactsList::from(vec![in alloc; collector, deduplicator, parser, writer]?))
}

fn other_bots(alloc: Global) -> Result<FactsList, OutOfMemory>
    ensures { IfOk result (λ bots. bots ≡ other_bots) }
{
    let archive = writer(alloc, b"archive")?;
    let collect = collector(
        b"collect",
        b"other.csv",
        alloc,
        one_queue(alloc, b"dedup-queue")?,
    )?;
    let dedup = strict_deduplicator(alloc)?;
    let fetch = collector(
        b"fetch",
        b"fetch.csv",
        alloc,
        one_queue(alloc, b"write-queue")?,
    )?;
    let gather = collector(
        b"gather",
        b"gather.csv",
        alloc,
        one_queue(alloc, b"store-queue")?,
    )?;
    let store = writer(alloc, b"store")?;
    let write = writer(alloc, b"write")?;
    Ok(FactsList::from(vec![in alloc; archive, collect, dedup, fetch, gather, store, write]?))
}

fn bots_of(alloc: Global, bundle: &[u8]) -> Result<Option<FactsList>, OutOfMemory>
    ensures { IfOk result (λ bots. bots ≡ bots_of_bundle bundle.now) }
{
    if bundle == b"thin".as_slice() {
        Ok(Some(thin_bots(alloc)?))
    } else if bundle == b"tiny".as_slice() {
        Ok(Some(tiny_bots(alloc)?))
    } else if bundle == b"other".as_slice() {
        Ok(Some(other_bots(alloc)?))
    } else {
        Ok(None)
    }
}

fn begins_with(sign: u8, body: &[u8]) -> bool
    ensures { result ≡ begins_with sign body.now }
{
    match body {
        [first, ..] => *first == sign,
        [] => false,
    }
}

fn is_bad(body: &[u8]) -> bool
    ensures { result ≡ is_bad body.now }
{
    begins_with(b'!', body)
}

fn is_faulty(body: &[u8]) -> bool
    ensures { result ≡ is_faulty body.now }
{
    begins_with(b'?', body)
}

fn note(alloc: Global) -> Result<FaultNote, OutOfMemory>
    ensures { IfOk result (λ n. n ≡ note) }
{
    Ok(FaultNote {
        code: 7,
        text: text(alloc, b"bad")?,
    })
}

fn bad_parts(alloc: Global, body: &Blob) -> Result<NoteList, OutOfMemory>
    ensures { IfOk result (λ parts. parts ≡ bad_parts body.now) }
{
    if is_bad(body.bytes()) {
        Ok(NoteList::from(vec![in alloc; (body.copy(alloc)?, note(alloc)?)]?))
    } else {
        Ok(NoteList::new(alloc))
    }
}

// The body behind a byte.
fn behind(alloc: Global, byte: &[u8], body: &Blob) -> Result<Blob, OutOfMemory>
    ensures { IfOk result (λ blob. blob ≡ byte.now ++ body.now) }
{
    let mut bytes = Vec::with_capacity(alloc, byte.len() + body.bytes().len())?;
    bytes.extend_from_slice(byte)?;
    bytes.extend_from_slice(body.bytes())?;
    Ok(Blob::from(bytes))
}

fn sends(alloc: Global, name: &[u8], body: Blob) -> Result<SendList, OutOfMemory>
    ensures { IfOk result (λ sends. sends ≡ (name.now, body) ∷ []) }
{
    Ok(SendList::from(vec![in alloc; (queue(name)?, body)]?))
}

fn report(alloc: Global, piece: &Blob) -> Result<Blob, OutOfMemory>
    ensures { IfOk result (λ body. body ≡ report piece.now) }
{
    if is_bad(piece.bytes()) || is_faulty(piece.bytes()) {
        piece.copy(alloc)
    } else {
        behind(alloc, b"R", piece)
    }
}

fn passed_by(alloc: Global, role: Role, body: &Blob) -> Result<Given, OutOfMemory>
    ensures { IfOk result (λ given. given ≡ passed_by role body.now) }
{
    match role {
        Role::Collector => Ok(Given::Fault(note(alloc)?)),
        Role::Parser => Ok(Given::Pass {
            sends: sends(alloc, b"dedup-queue", behind(alloc, b"P", body)?)?,
            dumps: bad_parts(alloc, body)?,
            key: None,
            line: false,
        }),
        Role::Expert => Ok(Given::Pass {
            sends: sends(alloc, b"write-queue", behind(alloc, b"D", body)?)?,
            dumps: NoteList::new(alloc),
            key: Some(body.copy(alloc)?),
            line: false,
        }),
        Role::Output => Ok(Given::Pass {
            sends: SendList::new(alloc),
            dumps: NoteList::new(alloc),
            key: None,
            line: true,
        }),
    }
}

fn given_by(alloc: Global, role: Role, body: &Blob) -> Result<Given, OutOfMemory>
    ensures { IfOk result (λ given. given ≡ given_by role body.now) }
{
    if is_faulty(body.bytes()) {
        Ok(Given::Fault(note(alloc)?))
    } else {
        passed_by(alloc, role, body)
    }
}

impl Rules for TinyRules {
    ghost use Rattle.step_code.specs.Rules.{Task};
    ghost use Rattle.tests_rules.specs.Tiny.{meaning};
    ghost use Rattle.tests_rules.specs.TinyLaws.{bots_are_sound, reports_are_lawful, given_fits};

    type Plan = TinyPlan;

    type Work = TinyWork;

    ghost meaning = { meaning };

    ghost bundle_of = { λ plan. plan.bundle };

    ghost bots_of = { λ plan. plan.bots };

    ghost task_of = { λ work. work };

    fn plan(&self, alloc: Global, bundle: &Blob) -> Result<TinyPlan, PlanFault> {
        match bots_of(alloc, bundle.bytes()) {
            Ok(Some(bots)) => match bundle.copy(alloc) {
                Ok(bundle) => Ok(TinyPlan { bundle, bots }),
                Err(OutOfMemory) => Err(PlanFault::OutOfMemory),
            },
            Ok(None) => Err(PlanFault::Refused),
            Err(OutOfMemory) => Err(PlanFault::OutOfMemory),
        }
    }

    fn facts<'p>(&self, plan: &'p TinyPlan) -> &'p FactsList {
        &plan.bots
    }

    fn report(
        &self,
        alloc: Global,
        _plan: &TinyPlan,
        _bot: &BotName,
        piece: &Blob,
        _now: Moment,
    ) -> Result<Blob, OutOfMemory> {
        report(alloc, piece)
    }

    fn work(&self, alloc: Global, plan: &TinyPlan, bot: &BotName) -> Result<TinyWork, OutOfMemory> {
        match bot_named(plan.bots.as_slice(), bot) {
            Some(facts) => Ok(TinyWork {
                bundle: plan.bundle.copy(alloc)?,
                bot: *bot,
                role: facts.role,
            }),
            None => Err(OutOfMemory),
        }
    }

    #[tactic(auto, using(crate::proofs::Tiny::given_of))]
    fn give(
        &self,
        alloc: Global,
        work: &mut TinyWork,
        body: &Blob,
        _since: Moment,
    ) -> Result<Given, OutOfMemory> {
        given_by(alloc, work.role, body)
    }

    ghost bots_are_sound = { bots_are_sound };

    ghost reports_are_lawful = { λ bots task piece now loads collects bytes limit. reports_are_lawful piece };

    ghost given_fits = { λ bots facts task body since. given_fits bots facts task body };
}
