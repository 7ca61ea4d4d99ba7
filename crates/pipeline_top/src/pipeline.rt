ghost use Rattle.std.specs.Prelude.{◌≡◌, ◌↔◌, ◌≤◌, ◌⊎◌, List, ℕ, codes, Some, false};
ghost use Rattle.edge_traits.specs.Count.{Rose};
ghost use Rattle.edge_traits.specs.Shelf.{count_on};
ghost use Rattle.bot_rules.specs.Intel.{intel};
ghost use Rattle.command_words.specs.Command as asked;
ghost use Rattle.command_words.specs.Words.{command_of};
ghost use Rattle.status_texts.specs.declared.status.FeedWhy.TheVariants.{Failed};
ghost use Rattle.pipeline_top.specs.Commands.{is_pipeline, IsPipeline};
ghost use Rattle.pipeline_top.specs.History.{KeepsHistory, ShowsReplay};
ghost use Rattle.pipeline_top.specs.Outside.{seen_as};

use crate::Status;
use crate::run::run;
use crate::tool::run_tool;
use base_types::Text;
use command_words::run_of;
use edge_traits::{Clock, Disk, Gate, Shelf, Sink, Source};
use std::alloc::Global;
use std::sync::Wait;
use std::thread::Threads;
use store_commands::Shown;

/// Does what the words say where there may be threads, and answers how it ended: `run` has each bot of a store on a thread of its own, and
/// follows the lines of control meanwhile; other words do what they do without threads. Words that are no command do nothing. The disk comes back.
pub fn run_pipeline<T, K, H, D, S, C, G>(
    rt: &T,
    alloc: Global,
    words: &[Text],
    control: &mut K,
    shelf: &mut H,
    disk: D,
    out: &mut S,
    clock: &C,
    gate: &G,
) -> (Status, D)
where
    T: Threads + Wait + Sync,
    K: Source,
    H: Shelf,
    H::Src: Send,
    D: Disk + Send,
    S: Sink,
    C: Clock + Sync,
    G: Gate + Sync,

    // What is done for each command: what it brings from the shelf, what it makes of a store, at any moment of the call and after
    // it, what it prints, and how it ends.
    ensures done { IsPipeline D.disk words.now (K.source control.old).told (seen_as (H.shelf shelf.old) (H.shelf shelf.new) (S.sink out.old) (S.sink out.new) (C.told clock.now)) disk result.1 result.0 }

    // Whatever a crash leaves at any moment of the call, and after it, holds a history that begins with the steps that the disk
    // stood for, where all generations are looked at: a history is never shortened.
    ensures history { KeepsHistory intel (D.disk disk) (D.disk result.1) }

    // What is shown of a store is shown of the state after its whole history.
    ensures status_replayed { command_of words.now ≡ Some asked.Status → ShowsReplay Shown.State (D.disk disk) result.0 (S.sink out.old) (S.sink out.new) }
    ensures dumps_replayed { command_of words.now ≡ Some asked.Dumps → ShowsReplay Shown.Dumps (D.disk disk) result.0 (S.sink out.old) (S.sink out.new) }

    // The words are no command, and nothing is read or written.
    ensures words { (result.0 ≡ Status.Words) ↔ (is_pipeline words.now ≡ false) }
    ensures untouched { result.0 ≡ Status.Words → (H.shelf shelf.new ≡ H.shelf shelf.old) × (K.source control.new ≡ K.source control.old) }

    // The outside failed, as its counts show.
    ensures disk { result.0 ≡ Status.Disk → Rose (D.disk disk).faults (D.disk result.1).faults }
    ensures sink { result.0 ≡ Status.Sink → Rose (S.sink out.old).faults (S.sink out.new).faults }
    ensures failed { (name : List ℕ) → result.0 ≡ Status.Feed name Failed → Rose (count_on (H.shelf shelf.old) name) (count_on (H.shelf shelf.new) name) ⊎ ((name ≡ codes "control") × Rose (K.source control.old).faults (K.source control.new).faults) }

    // What stays.
    ensures told { (H.shelf shelf.new).told ≡ (H.shelf shelf.old).told }
    ensures counts { (name : List ℕ) → count_on (H.shelf shelf.old) name ≤ count_on (H.shelf shelf.new) name }
    ensures control_count { (K.source control.old).faults ≤ (K.source control.new).faults }
    ensures disk_count { (D.disk disk).faults ≤ (D.disk result.1).faults }
    ensures sink_count { (S.sink out.old).faults ≤ (S.sink out.new).faults }
{
    match run_of(words) {
        Some(ask) => run(rt, alloc, ask, control, shelf, disk, out, clock, gate),
        None => run_tool(alloc, words, shelf, disk, out, clock),
    }
}
