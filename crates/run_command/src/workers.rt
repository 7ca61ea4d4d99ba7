//! The workers of a bundle, and their feeds.
ghost use Rattle.std.specs.Prelude.{◌≡◌, IfOk, IfSome, OnOk};
ghost use Rattle.std.specs.List.{AllByRecursion};
ghost use Rattle.edge_traits.specs.Shelf.{ShelfView};
ghost use Rattle.collector_feeds.specs.Standing.{IsFetched};
ghost use Rattle.step_code.specs.Rules.{AreSound};
ghost use Rattle.step_code.specs.State.{bots_in_force};
ghost use Rattle.run_command.specs.Fetched.{EndHasFetched, HasFetched, KeepsShelf};

use ack_steps::Core;
use base_types::{BotName, OutOfMemory, Text};
use bot_runner::{FeedSource, Worker, WorkerEnd};
use edge_traits::{Shelf, ShelfFault, Source};
use std::alloc::Global;
use step_code::{Facts, Rules};

// The bots of the bundle in force, in byte order.
pub(crate) fn bots<R: Rules>(core: &Core<R>) -> &[Facts]
    ensures bots { result.now ≡ bots_in_force R.meaning core.now.state }
    ensures sound { AreSound result.now }
{
    core.rules().facts(core.plan()).as_slice()
}

// A worker for each instance of the bots in force that take messages, and one for each collector whose feed can be fetched. Where memory
// runs out there are fewer.
pub(crate) fn workers_of<R: Rules, H: Shelf>(
    alloc: Global,
    core: &Core<R>,
    shelf: &mut H,
) -> Vec<Worker<H::Src>>
    ensures fetched { AllByRecursion (HasFetched H.Src.source (H.shelf shelf.new)) result.items }
    ensures keeps { KeepsShelf (H.shelf shelf.old) (H.shelf shelf.new) }
{
    let mut workers = Vec::new(alloc);
    let _ = add_bots(alloc, bots(core), shelf, &mut workers);
    workers
}

// Adds the workers of these bots.
fn add_bots<H: Shelf>(
    alloc: Global,
    bots: &[Facts],
    shelf: &mut H,
    workers: &mut Vec<Worker<H::Src>>,
) -> Result<(), OutOfMemory>
    ensures fetched { AllByRecursion (HasFetched H.Src.source (H.shelf shelf.old)) workers.old.items → AllByRecursion (HasFetched H.Src.source (H.shelf shelf.new)) workers.new.items }
    ensures keeps { KeepsShelf (H.shelf shelf.old) (H.shelf shelf.new) }
{
    match bots {
        [] => Ok(()),
        [facts, others @ ..] => match add_bot(alloc, facts, shelf, workers) {
            Ok(()) => add_bots(alloc, others, shelf, workers),
            Err(OutOfMemory) => Err(OutOfMemory),
        },
    }
}

// Adds the workers of a bot.
fn add_bot<H: Shelf>(
    alloc: Global,
    facts: &Facts,
    shelf: &mut H,
    workers: &mut Vec<Worker<H::Src>>,
) -> Result<(), OutOfMemory>
    ensures fetched { AllByRecursion (HasFetched H.Src.source (H.shelf shelf.old)) workers.old.items → AllByRecursion (HasFetched H.Src.source (H.shelf shelf.new)) workers.new.items }
    ensures keeps { KeepsShelf (H.shelf shelf.old) (H.shelf shelf.new) }
{
    match &facts.feed {
        Some(feed) => add_collector(alloc, facts.bot, &feed.file, shelf, workers),
        None => add_instances(facts.bot, facts.instances, workers),
    }
}

// Adds so many instances of a bot.
fn add_instances<S: Source>(
    bot: BotName,
    instances: u8,
    workers: &mut Vec<Worker<S>>,
) -> Result<(), OutOfMemory>
    ensures { (shelf : ShelfView) → AllByRecursion (HasFetched S.source shelf) workers.old.items → AllByRecursion (HasFetched S.source shelf) workers.new.items }
{
    if instances == 0 {
        return Ok(());
    }
    workers.reserve(1)?;
    workers.push_reserved(Worker {
        bot,
        instance: instances,
        feed: None,
    });
    add_instances(bot, instances - 1, workers)
}

// Adds a collector, if its feed can be fetched.
fn add_collector<H: Shelf>(
    alloc: Global,
    bot: BotName,
    name: &Text,
    shelf: &mut H,
    workers: &mut Vec<Worker<H::Src>>,
) -> Result<(), OutOfMemory>
    ensures fetched { AllByRecursion (HasFetched H.Src.source (H.shelf shelf.old)) workers.old.items → AllByRecursion (HasFetched H.Src.source (H.shelf shelf.new)) workers.new.items }
    ensures keeps { KeepsShelf (H.shelf shelf.old) (H.shelf shelf.new) }
{
    workers.reserve(1)?;
    let Some(feed) = fetch(alloc, name, shelf)? else {
        return Ok(());
    };
    workers.push_reserved(Worker {
        bot,
        instance: 1,
        feed: Some(feed),
    });
    Ok(())
}

// A feed, if it can be fetched.
fn fetch<H: Shelf>(
    alloc: Global,
    name: &Text,
    shelf: &mut H,
) -> Result<Option<FeedSource<H::Src>>, OutOfMemory>
    ensures fetched { IfOk result (λ feed. IfSome feed (λ f. IsFetched (H.shelf shelf.new) f.file (H.Src.source f.source))) }
    ensures keeps { KeepsShelf (H.shelf shelf.old) (H.shelf shelf.new) }
{
    let file = name.copy(alloc)?;
    match shelf.fetch(alloc, &file) {
        Ok(source) => Ok(Some(FeedSource {
            file,
            source,
            failed: 0,
        })),
        Err(ShelfFault::OutOfMemory) => Err(OutOfMemory),
        Err(ShelfFault::Absent | ShelfFault::Failed) => Ok(None),
    }
}

// Gives the feed of a worker back, if it reads one.
fn give_back<H: Shelf>(worker: Worker<H::Src>, shelf: &mut H)
    requires { HasFetched H.Src.source (H.shelf shelf.old) worker }
    ensures { KeepsShelf (H.shelf shelf.old) (H.shelf shelf.new) }
{
    let Worker {
        bot: _,
        instance: _,
        feed,
    } = worker;
    if let Some(feed) = feed {
        let FeedSource {
            file,
            source,
            failed: _,
        } = feed;
        shelf.take_back(&file, source);
    }
}

// Gives the feeds of all workers back.
pub(crate) fn give_back_workers<H: Shelf>(workers: Vec<Worker<H::Src>>, shelf: &mut H)
    requires { AllByRecursion (HasFetched H.Src.source (H.shelf shelf.old)) workers.items }
    ensures { KeepsShelf (H.shelf shelf.old) (H.shelf shelf.new) }
{
    let mut workers = workers;
    match workers.pop() {
        Some(worker) => {
            give_back(worker, shelf);
            give_back_workers(workers, shelf);
        }
        None => workers.destroy_empty(),
    }
}

// Gives the feeds back of the workers that ended so.
pub(crate) fn give_back_ends<H: Shelf>(ends: Vec<WorkerEnd<H::Src>>, shelf: &mut H)
    requires { AllByRecursion (EndHasFetched H.Src.source (H.shelf shelf.old)) ends.items }
    ensures { KeepsShelf (H.shelf shelf.old) (H.shelf shelf.new) }
{
    let mut ends = ends;
    match ends.pop() {
        Some(end) => {
            give_back_end(end, shelf);
            give_back_ends(ends, shelf);
        }
        None => ends.destroy_empty(),
    }
}

fn give_back_end<H: Shelf>(end: WorkerEnd<H::Src>, shelf: &mut H)
    requires { EndHasFetched H.Src.source (H.shelf shelf.old) end }
    ensures { KeepsShelf (H.shelf shelf.old) (H.shelf shelf.new) }
{
    let WorkerEnd {
        steps: _,
        why: _,
        worker,
    } = end;
    if let Some(worker) = worker {
        give_back(worker, shelf);
    }
}
