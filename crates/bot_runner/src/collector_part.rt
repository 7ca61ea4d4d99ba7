//! The part of a collector in a round.
ghost use Rattle.std.specs.Prelude.{◌≡◌, ◌≤◌, true, None, Some, IfSome};
ghost use Rattle.book_lock.specs.Seats.{knows, opening, IsSeatOf};
ghost use Rattle.report_cut.specs.Pieces.{longest_line};
ghost use Rattle.step_code.specs.Sound.{last_number};
ghost use Rattle.collector_feeds.specs.Found.{IsAhead};
ghost use Rattle.collector_feeds.specs.Open.{GoesOn, IsThere};
ghost use Rattle.worker_turns.specs.Collecting.{IsCollectorStep, IsTrueOf};
ghost use Rattle.bot_runner.specs.Round.{CollectorEnds, CountedFailures, HasFailures, IsFeedOf};
ghost use Rattle.bot_runner.specs.Parts.{HasEnded, IsNew};
ghost use Rattle.bot_runner.specs.Feeds.{HasHeldFeed, HasLookedOn, IsAtFeed, IsReadWhy};

use crate::ends::{QUIET_LOOKS, why_of};
use crate::outside::Outside;
use crate::turns::{rest_behind, take_turn};
use crate::{FeedSource, Why};
use base_types::BotName;
use book_lock::{BookLock, Seat};
use edge_traits::{Clock, Disk, Gate, Source, When};
use feed_reader::ReaderFault;
use locked_book::Locked;
use std::sync::Wait;
use step_code::Rules;
use worker_turns::{Collector, Looked, Place, ReadFeed, Sight, collector_turn};

/// A collector between two holds: what it found, how many reads have failed, and how many looks in a row found nothing.
#[derive(Drop)]
pub struct Reading {
    pub worker: Collector,
    pub sight: Option<Sight>,
    pub failed: u64,
    pub quiet: u32,
}

// The part of this collector. Answers its feed, the numbers of its steps, and why it ended.
pub(crate) fn collector_part<T: Wait, D: Disk, R: Rules, S: Source, C: Clock, G: Gate>(
    rt: &T,
    lock: &BookLock<Locked<D, R>>,
    seat: Seat<Locked<D, R>>,
    bot: BotName,
    feed: FeedSource<S>,
    outside: &Outside<'_, C, G>,
) -> (Seat<Locked<D, R>>, FeedSource<S>, Vec<u64>, Why)
    requires lock { IsSeatOf lock.now seat }
    requires new { IsNew R.meaning (opening lock.now) (knows seat) }
    ensures lock { IsSeatOf lock.now result.0 }
    ensures parts { (knows result.0).parts ≡ (knows seat).parts }
    ensures feed { IsFeedOf S.source (Some feed) (Some result.1) }
    ensures failures { HasFailures result.1.failed result.3 }
    ensures ended { HasEnded R.meaning (IsCollectorStep R.meaning (C.told outside.now.clock.now) (S.source feed.source).told bot feed.file) outside.now.left (CollectorEnds R.meaning (S.source feed.source).told bot feed.file) (opening lock.now).opening (knows result.0) result.2.items result.3 }
{
    let FeedSource {
        file,
        source,
        failed,
    } = feed;
    let mut seat = seat;
    let mut read = ReadFeed::new(source);
    let mut reading = Reading {
        worker: Collector {
            bot,
            file,
            steps: Vec::new(outside.alloc),
        },
        sight: None,
        failed,
        quiet: 0,
    };
    'looks: for _ in rt.forever() {
        let (back, on, why) = look_on(rt, lock, seat, read, &mut reading, outside);
        seat = back;
        read = on;
        if let Some(why) = why {
            let Reading {
                worker,
                sight: _,
                failed,
                quiet: _,
            } = reading;
            let Collector {
                bot: _,
                file,
                steps,
            } = worker;
            let feed = FeedSource {
                file,
                source: read.into_source(),
                failed,
            };
            return (seat, feed, steps, why);
        }
    }
    unreachable!()
}

// A hold of a collector, and a read of its feed after it. Answers why its part ends, if it does.
fn look_on<T: Wait, D: Disk, R: Rules, S: Source, C: Clock, G: Gate>(
    rt: &T,
    lock: &BookLock<Locked<D, R>>,
    seat: Seat<Locked<D, R>>,
    read: ReadFeed<S>,
    reading: &mut Reading,
    outside: &Outside<'_, C, G>,
) -> (Seat<Locked<D, R>>, ReadFeed<S>, Option<Why>)
    requires lock { IsSeatOf lock.now seat }
    requires at_feed { IsAtFeed R.meaning (C.told outside.now.clock.now) outside.now.left (opening lock.now).opening read.told reading.old.worker.bot reading.old.worker.file (knows seat) reading.old }
    ensures lock { IsSeatOf lock.now result.0 }
    ensures parts { (knows result.0).parts ≡ (knows seat).parts }
    ensures goes_on { GoesOn read result.1 }
    ensures failed { reading.old.failed ≤ reading.new.failed }
    ensures counted { CountedFailures reading.old.failed read.faults reading.new.failed result.1.faults }
    ensures failures { IfSome result.2 (HasFailures reading.new.failed) }
    ensures looked { HasLookedOn R.meaning (C.told outside.now.clock.now) outside.now.left (opening lock.now).opening read.told reading.old.worker.bot reading.old.worker.file (knows result.0) reading.new result.2 }
{
    let (seat, looked) = feed_hold(rt, lock, seat, &read, reading, outside);
    match looked {
        Looked::Looks(place) => {
            reading.quiet = 0;
            let (read, why) = read_at(read, reading, place, outside);
            (seat, read, why)
        }
        Looked::Waits { at, sight } => {
            reading.sight = Some(sight);
            (seat, read, rest(reading, at, false, outside))
        }
        Looked::Nothing { at, idle } => (seat, read, rest(reading, at, idle, outside)),
        Looked::Unreadable(cause) => (seat, read, Some(Why::Unreadable(cause))),
        Looked::Ended(end) => (seat, read, Some(why_of(end))),
    }
}

// A rest after a look that found nothing, unless so many of them found nothing in a row.
fn rest<C, G: Gate>(
    reading: &mut Reading,
    at: u64,
    idle: bool,
    outside: &Outside<'_, C, G>,
) -> Option<Why>
    ensures reading { reading.new ≡ record reading.old { quiet = reading.new.quiet } }
    ensures why { IfSome result (λ why. why ≡ Why.Quiet at) }
{
    reading.quiet = reading.quiet.saturating_add(1);
    if reading.quiet >= QUIET_LOOKS {
        return Some(Why::Quiet { at });
    }
    rest_behind(outside.gate, reading.quiet, idle);
    None
}

// A read of the feed at a place. A read that fails is counted, and tried again as often as the bot is.
fn read_at<S: Source, C, G: Gate>(
    read: ReadFeed<S>,
    reading: &mut Reading,
    place: Place,
    outside: &Outside<'_, C, G>,
) -> (ReadFeed<S>, Option<Why>)
    requires near { place.at ≤ last_number }
    requires some { 1 ≤ place.facts.chunk_size }
    requires chunk { place.facts.chunk_size ≤ longest_line }
    requires none { reading.old.sight ≡ None }
    ensures worker { reading.new.worker ≡ reading.old.worker }
    ensures failed { reading.old.failed ≤ reading.new.failed }
    ensures counted { CountedFailures reading.old.failed read.faults reading.new.failed result.0.faults }
    ensures failures { IfSome result.1 (HasFailures reading.new.failed) }
    ensures goes_on { GoesOn read result.0 }
    ensures sight { IfSome reading.new.sight (λ sight. (sight.place ≡ place) × IsAhead sight.place.at sight.found × IsThere sight.found × IsTrueOf read.told sight) }
    ensures why { IfSome result.1 (IsReadWhy place.retries) }
{
    let (read, found) = read.look(outside.alloc, &place);
    match found {
        Ok(found) => {
            reading.sight = Some(Sight { place, found });
            (read, None)
        }
        Err(ReaderFault::Failed) => {
            reading.failed = reading.failed.saturating_add(1);
            if reading.failed > place.retries as u64 {
                let failed = reading.failed;
                return (read, Some(Why::Feed { failed }));
            }
            outside.gate.rest(1);
            (read, None)
        }
        Err(ReaderFault::OutOfMemory) => (read, Some(Why::Memory)),
    }
}

// A hold of a collector.
fn feed_hold<T: Wait, D: Disk, R: Rules, S: Source, C: Clock, G: Gate>(
    rt: &T,
    lock: &BookLock<Locked<D, R>>,
    seat: Seat<Locked<D, R>>,
    read: &ReadFeed<S>,
    reading: &mut Reading,
    outside: &Outside<'_, C, G>,
) -> (Seat<Locked<D, R>>, Looked)
    requires lock { IsSeatOf lock.now seat }
    requires at_feed { IsAtFeed R.meaning (C.told outside.now.clock.now) outside.now.left (opening lock.now).opening read.now.told reading.old.worker.bot reading.old.worker.file (knows seat) reading.old }
    ensures lock { IsSeatOf lock.now result.0 }
    ensures parts { (knows result.0).parts ≡ (knows seat).parts }
    ensures reading { reading.new ≡ record reading.old { worker = reading.new.worker; sight = None } }
    ensures held { HasHeldFeed R.meaning (C.told outside.now.clock.now) outside.now.left (opening lock.now).opening read.now.told reading.old.worker.bot reading.old.worker.file (knows result.0) reading.new result.1 }
{
    let before = reading.worker.steps.len();
    let sight = reading.sight.take();
    let mut held = take_turn(rt, lock, seat, outside.gate);
    let locked = held.value();
    let _ = locked.core();
    let looked = collector_turn(
        outside.alloc,
        locked,
        &mut reading.worker,
        sight,
        outside.clock,
        outside.left,
    );
    let seat = BookLock::unlock(held);
    if reading.worker.steps.len() > before {
        outside.gate.at(&reading.worker.bot, 1, When::AfterCommit);
    }
    (seat, looked)
}
