//! Steps made from a state: what the pipeline would take there, whether it fits or not.

use crate::random::Random;
use base_types::{Blob, BotName, FaultNote, Moment, SendList, queue_of};
use std::alloc::Global;
use std::test::Fail;
use step_code::{Base, CacheRule, Given, Step, StepKind, bot_named};
use stored_types::{Coded, Hand, Mark};
use tests_core::TinyCore;

// A parser puts aside what begins with `!`, and `?` is a fault to any bot.
const PIECES: [&'static str; 6] = ["a", "b", "?c", "!d", "?e", "!f"];

// The last is none.
const BUNDLES: [&'static str; 5] = ["tiny", "other", "thin", "tiny", "none"];

fn pieces() -> [&'static str; 6] {
    PIECES
}

fn bundles() -> [&'static str; 5] {
    BUNDLES
}

/// A core and its state.
#[derive(Clone, Copy)]
pub struct Scene<'c> {
    pub alloc: Global,
    pub core: &'c TinyCore,
    pub base: &'c Base,
}

/// A step at the latest moment or up to 39 seconds after it. There is none on a hand or a dump where none is there.
pub fn candidate(random: &mut Random, scene: Scene<'_>) -> Result<Option<Step>, Fail> {
    let later = random.below(40);
    let moment = Moment(scene.base.latest.0.saturating_add(later));
    match kind(random, scene, moment)? {
        Some(what) => Ok(Some(Step { moment, what })),
        None => Ok(None),
    }
}

// Steps that move messages are the most frequent.
fn kind(random: &mut Random, scene: Scene<'_>, now: Moment) -> Result<Option<StepKind>, Fail> {
    match random.below(32) {
        0 => Ok(Some(StepKind::Start)),
        1 => reload(random, scene.alloc),
        2 | 3 => Ok(redo(random, scene.base)),
        4 => Ok(round(random, scene.base)),
        5 => Ok(feed_end(random, scene.base)),
        6..=11 => collect(random, scene),
        12..=19 => Ok(take(random, scene)),
        _ => work(random, scene, now),
    }
}

fn reload(random: &mut Random, alloc: Global) -> Result<Option<StepKind>, Fail> {
    match random.one_of(&bundles()) {
        Some(bundle) => Ok(Some(StepKind::Reload {
            bundle: Blob::new(alloc, (*bundle).as_bytes())?,
        })),
        None => Ok(None),
    }
}

fn redo(random: &mut Random, base: &Base) -> Option<StepKind> {
    match random.one_of(base.dumps.as_slice()) {
        Some(dump) => Some(StepKind::Redo { dump: dump.no }),
        None => None,
    }
}

fn round(random: &mut Random, base: &Base) -> Option<StepKind> {
    match random.one_of(base.feeds.as_slice()) {
        Some(feed) => Some(StepKind::Round { bot: feed.bot }),
        None => None,
    }
}

fn feed_end(random: &mut Random, base: &Base) -> Option<StepKind> {
    match random.one_of(base.feeds.as_slice()) {
        Some(feed) => Some(StepKind::FeedEnd {
            bot: feed.bot,
            position: feed.position,
        }),
        None => None,
    }
}

fn piece(random: &mut Random, alloc: Global) -> Result<Blob, Fail> {
    match random.one_of(&pieces()) {
        Some(piece) => Ok(Blob::new(alloc, (*piece).as_bytes())?),
        None => Err(Fail::from("no piece")),
    }
}

fn collect(random: &mut Random, scene: Scene<'_>) -> Result<Option<StepKind>, Fail> {
    let Some(feed) = random.one_of(scene.base.feeds.as_slice()) else {
        return Ok(None);
    };
    let piece = piece(random, scene.alloc)?;
    let length = piece.bytes().len() as u64;
    Ok(Some(StepKind::Collect {
        bot: feed.bot,
        from: feed.position,
        upto: feed.position.saturating_add(length),
        piece,
    }))
}

// The first or second instance of a bot takes what is in front of its queue.
fn take(random: &mut Random, scene: Scene<'_>) -> Option<StepKind> {
    let second = random.below(2) == 1;
    match random.one_of(scene.core.bots()) {
        Some(facts) => Some(StepKind::Take {
            bot: facts.bot,
            instance: if second { 2 } else { 1 },
            message: front_no(scene.base, &facts.bot),
        }),
        None => None,
    }
}

// The number of the message in front of the bot's queue, and 0 where none waits.
fn front_no(base: &Base, bot: &BotName) -> u64 {
    let name = queue_of(bot);
    for queue in base.queues.as_slice() {
        if queue.name == name {
            return match queue.messages.as_slice() {
                [first, ..] => first.no,
                [] => 0,
            };
        }
    }
    0
}

// What a bot makes of the message in a hand. Now and then it was made under another bundle.
fn work(random: &mut Random, scene: Scene<'_>, now: Moment) -> Result<Option<StepKind>, Fail> {
    let Some(hand) = random.one_of(scene.base.hands.as_slice()) else {
        return Ok(None);
    };
    let stale = if random.below(16) == 0 { 1 } else { 0 };
    let bundle = scene.base.bundle_no.saturating_add(stale);
    match scene
        .core
        .given_of(&hand.bot, &hand.message.body, hand.since)?
    {
        Given::Fault(note) => {
            if random.below(2) == 0 {
                Ok(Some(retry(hand, bundle, note)))
            } else {
                fail(scene, hand, bundle, note)
            }
        }
        given => Ok(done(scene, hand, bundle, now, given)),
    }
}

fn retry(hand: &Hand, bundle: u64, note: FaultNote) -> StepKind {
    StepKind::Retry {
        bot: hand.bot,
        instance: hand.instance,
        message: hand.message.no,
        bundle,
        note,
    }
}

fn fail(
    scene: Scene<'_>,
    hand: &Hand,
    bundle: u64,
    note: FaultNote,
) -> Result<Option<StepKind>, Fail> {
    let Some(facts) = bot_named(scene.core.bots(), &hand.bot) else {
        return Ok(None);
    };
    Ok(Some(StepKind::Fail {
        bot: hand.bot,
        instance: hand.instance,
        message: hand.message.no,
        bundle,
        note,
        queues: facts.on_error.copy(scene.alloc)?,
        halts: facts.stop,
    }))
}

// A duplicate leaves without successors and without a mark.
fn done(scene: Scene<'_>, hand: &Hand, bundle: u64, now: Moment, given: Given) -> Option<StepKind> {
    let Given::Pass {
        sends,
        dumps,
        key,
        line,
    } = given
    else {
        return None;
    };
    let (sends, key) = if is_duplicate(scene, &hand.bot, now, &key) {
        (SendList::new(scene.alloc), None)
    } else {
        (sends, key)
    };
    Some(StepKind::Done {
        bot: hand.bot,
        instance: hand.instance,
        message: hand.message.no,
        bundle,
        sends,
        dumps,
        key,
        line,
    })
}

fn is_duplicate(scene: Scene<'_>, bot: &BotName, now: Moment, key: &Option<Blob>) -> bool {
    let Some(key) = key else {
        return false;
    };
    let Some(facts) = bot_named(scene.core.bots(), bot) else {
        return false;
    };
    let Some(rule) = facts.cache else {
        return false;
    };
    for cache in scene.base.caches.as_slice() {
        if cache.bot == *bot && has_live_mark(cache.marks.as_slice(), rule, now, key) {
            return true;
        }
    }
    false
}

fn has_live_mark(marks: &[Mark], rule: CacheRule, now: Moment, key: &Blob) -> bool {
    for mark in marks {
        if mark.key == *key && now.0.saturating_sub(mark.moment.0) < rule.ttl {
            return true;
        }
    }
    false
}
