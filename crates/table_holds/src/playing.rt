//! One worker on a book: an instance, or a collector.
ghost use Rattle.std.specs.Prelude.{◌≡◌, ℕ, List, None, IfOk, IfSome};
ghost use Rattle.journal_book.specs.Staged.{IsMove};
ghost use Rattle.tests_rules.specs.Tiny.{meaning};
ghost use Rattle.locked_book.specs.Locked.{LockedView};
ghost use Rattle.worker_turns.specs.Holds.{IsDone, IsReadyFor};
ghost use Rattle.table_holds.specs.Playing.{IsPlaying};
ghost use Rattle.edge_memory.specs.declared.disk.MemDisk.{MemDisk};
ghost use Rattle.tests_rules.specs.declared.rules.TinyRules.{TinyRules};

use crate::texts::{found_text, looked_text};
use base_types::{Blob, BotName, NumberList, OutOfMemory, Text};
use edge_memory::{MemClock, MemDisk, MemSource};
use journal_book::{Move, StageRefusal};
use locked_book::{HoldFault, Locked};
use std::alloc::{AllocError, Global};
use tests_rules::{TinyRules, TinyWork};
use worker_turns::{
    Collector, Done, Instance, Job, Looked, Place, ReadFeed, Ready, Sight, Turned, collector_turn,
    compute, instance_turn,
};

/// What the clock shows, in seconds since 1970.
const NOW: u64 = 1_000;

/// A worker on a book, with what it has between two holds.
#[derive(Drop)]
pub struct Play {
    pub locked: Locked<MemDisk, TinyRules>,
    pub instance: Instance<TinyWork>,
    pub collector: Collector,
    pub job: Option<Job>,
    pub done: Option<Done>,
    pub place: Option<Place>,
    pub sight: Option<Sight>,
    pub left: Option<u64>,
}

/// Why a step wasn't made outright.
#[derive(Clone, Copy, Debug, PartialEq, Eq)]
pub enum MoveFault {
    Marked,
    Half,
    Disk,
    Refused(StageRefusal),
}

fn instance(alloc: Global, bot: BotName, number: u8) -> Instance<TinyWork>
    ensures none { result.ready ≡ None }
{
    Instance {
        bot,
        number,
        ready: None,
        steps: Vec::new(alloc),
    }
}

fn collector(alloc: Global, bot: BotName, file: Text) -> Collector {
    Collector {
        bot,
        file,
        steps: Vec::new(alloc),
    }
}

// What a bot that is ready gives of this message, if it is ready under the bundle of the message.
fn worked_on(
    alloc: Global,
    ready: &mut Option<Ready<TinyWork>>,
    job: Job,
) -> Result<Option<Done>, OutOfMemory>
    ensures ready { (v : LockedView MemDisk TinyRules) (bot : List ℕ) → IfSome ready.old (IsReadyFor meaning (λ t. t) v bot) → IfSome ready.new (IsReadyFor meaning (λ t. t) v bot) }
    ensures done { (v : LockedView MemDisk TinyRules) (bot : List ℕ) → IfSome ready.old (IsReadyFor meaning (λ t. t) v bot) → IfOk result (λ done. IfSome done (IsDone meaning v bot)) }
{
    match ready {
        Some(ready) => {
            if job.bundle != ready.bundle {
                return Ok(None);
            }
            match compute(alloc, &TinyRules, ready, job) {
                Ok(done) => Ok(Some(done)),
                Err(OutOfMemory) => Err(OutOfMemory),
            }
        }
        None => Ok(None),
    }
}

impl Play {
    /// A worker on a book that begins a round.
    pub fn new(
        alloc: Global,
        locked: Locked<MemDisk, TinyRules>,
        bot: BotName,
        file: Text,
        left: Option<u64>,
    ) -> Play
        ensures { IsPlaying result }
    {
        Play {
            locked,
            instance: instance(alloc, bot, 1),
            collector: collector(alloc, bot, file),
            job: None,
            done: None,
            place: None,
            sight: None,
            left,
        }
    }

    /// Another worker on the same book, which knows nothing of it yet.
    pub fn follow(&mut self, alloc: Global, bot: BotName, number: u8, file: Text)
        ensures { IsPlaying self.new }
    {
        self.instance = instance(alloc, bot, number);
        self.collector = collector(alloc, bot, file);
        self.job = None;
        self.done = None;
        self.place = None;
        self.sight = None;
    }

    /// A step that carries nothing of the rules, made outright.
    pub fn make(&mut self, what: Move) -> Result<u64, MoveFault>
        requires plain { (format now : ℕ) → IsMove meaning format self.old.locked.book.state now what }
        requires playing { IsPlaying self.old }
        ensures { IsPlaying self.new }
    {
        if self.locked.mark().is_some() {
            return Err(MoveFault::Marked);
        }
        match self.locked.commit(NOW, what) {
            Ok(number) => Ok(number),
            Err(HoldFault::Half) => Err(MoveFault::Half),
            Err(HoldFault::Disk) => Err(MoveFault::Disk),
            Err(HoldFault::Refused(refusal)) => Err(MoveFault::Refused(refusal)),
        }
    }

    /// Marks the round as stopped, if it has no mark.
    pub fn stop(&mut self)
        requires { IsPlaying self.old }
        ensures { IsPlaying self.new }
    {
        if self.locked.mark().is_none() {
            self.locked.stop();
        }
    }

    /// A hold of the instance, with what was computed since the last one.
    pub fn hold(&mut self, alloc: Global) -> Turned
        requires { IsPlaying self.old }
        ensures { IsPlaying self.new }
    {
        let done = self.done.take();
        instance_turn(
            alloc,
            &mut self.locked,
            &mut self.instance,
            done,
            &MemClock::new(NOW),
            self.left,
        )
    }

    /// Keeps the message of a hold.
    pub fn keep(&mut self, job: Job)
        requires { IsPlaying self.old }
        ensures { IsPlaying self.new }
    {
        self.job = Some(job);
    }

    /// What the bot gives of the message that is kept. Answers whether there was one.
    pub fn work(&mut self, alloc: Global) -> Result<bool, OutOfMemory>
        requires { IsPlaying self.old }
        ensures { IsPlaying self.new }
    {
        let Some(job) = self.job.take() else {
            return Ok(false);
        };
        match worked_on(alloc, &mut self.instance.ready, job) {
            Ok(Some(done)) => {
                self.done = Some(done);
                Ok(true)
            }
            Ok(None) => Ok(false),
            Err(OutOfMemory) => Err(OutOfMemory),
        }
    }

    /// A hold of the collector, with what it found since the last one. Answers what that comes to, in words.
    pub fn gather(&mut self, alloc: Global) -> Result<String, AllocError>
        requires { IsPlaying self.old }
        ensures { IsPlaying self.new }
    {
        let sight = self.sight.take();
        let looked = collector_turn(
            alloc,
            &mut self.locked,
            &mut self.collector,
            sight,
            &MemClock::new(NOW),
            self.left,
        );
        let text = looked_text(alloc, &looked);
        match looked {
            Looked::Looks(place) => self.place = Some(place),
            Looked::Waits { at: _, sight } => self.sight = Some(sight),
            _ => {}
        }
        text
    }

    /// Reads a feed with this content at the place where the collector looks. Answers what it finds, in words.
    pub fn read(&mut self, alloc: Global, content: Vec<u8>) -> Result<String, AllocError>
        requires { IsPlaying self.old }
        ensures { IsPlaying self.new }
    {
        let Some(place) = self.place.take() else {
            return "nowhere to look".to_string(alloc);
        };
        let source = MemSource::new(Blob::from(content), NumberList::new(alloc));
        let (feed, found) = ReadFeed::new(source).look(alloc, &place);
        let _ = feed.into_source().into_content();
        let Ok(found) = found else {
            return "unread".to_string(alloc);
        };
        let text = found_text(alloc, &found);
        self.sight = Some(Sight { place, found });
        text
    }
}
