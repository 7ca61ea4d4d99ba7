ghost use Rattle.std.specs.Prelude.{◌≡◌, ◌↔◌, ◌≤◌, List, ℕ, Some, false, is_some};
ghost use Rattle.edge_traits.specs.Count.{Rose};
ghost use Rattle.edge_traits.specs.Shelf.{count_on};
ghost use Rattle.bot_rules.specs.Intel.{intel};
ghost use Rattle.command_words.specs.Command as asked;
ghost use Rattle.command_words.specs.Words.{command_of};
ghost use Rattle.status_texts.specs.declared.status.FeedWhy.TheVariants.{Failed};
ghost use Rattle.pipeline_top.specs.Commands.{IsTool};
ghost use Rattle.pipeline_top.specs.History.{KeepsHistory, ShowsReplay};
ghost use Rattle.pipeline_top.specs.Outside.{seen_as};

use crate::Status;
use crate::audit::audit;
use crate::check::check;
use crate::convert::convert_named;
use crate::drain::drain;
use crate::drill::drill;
use crate::init::init;
use crate::show::{redo, show};
use base_types::Text;
use command_words::{Command, command_of};
use edge_traits::{Clock, Disk, Shelf, Sink};
use std::alloc::Global;
use store_commands::Shown;

/// Does what the words say, as `drain --steps 3`, and answers how it ended. Words that are no command do nothing. The disk comes
/// back.
pub fn run_tool<H: Shelf, D: Disk, S: Sink, C: Clock>(
    alloc: Global,
    words: &[Text],
    shelf: &mut H,
    disk: D,
    out: &mut S,
    clock: &C,
) -> (Status, D)
    // What is done for each command: what it brings from the shelf, what it makes of a store, at any moment of the call and after
    // it, what it prints, and how it ends.
    ensures done { IsTool D.disk (command_of words.now) (seen_as (H.shelf shelf.old) (H.shelf shelf.new) (S.sink out.old) (S.sink out.new) (C.told clock.now)) disk result.1 result.0 }

    // Whatever a crash leaves at any moment of the call, and after it, holds a history that begins with the steps that the disk
    // stood for, where all generations are looked at: a history is never shortened.
    ensures history { KeepsHistory intel (D.disk disk) (D.disk result.1) }

    // What is shown of a store is shown of the state after its whole history.
    ensures status_replayed { command_of words.now ≡ Some asked.Status → ShowsReplay Shown.State (D.disk disk) result.0 (S.sink out.old) (S.sink out.new) }
    ensures dumps_replayed { command_of words.now ≡ Some asked.Dumps → ShowsReplay Shown.Dumps (D.disk disk) result.0 (S.sink out.old) (S.sink out.new) }

    // The words are no command, and nothing is read or written.
    ensures words { (result.0 ≡ Status.Words) ↔ (is_some (command_of words.now) ≡ false) }
    ensures untouched { result.0 ≡ Status.Words → H.shelf shelf.new ≡ H.shelf shelf.old }

    // The outside failed, as its counts show.
    ensures disk { result.0 ≡ Status.Disk → Rose (D.disk disk).faults (D.disk result.1).faults }
    ensures sink { result.0 ≡ Status.Sink → Rose (S.sink out.old).faults (S.sink out.new).faults }
    ensures failed { (name : List ℕ) → result.0 ≡ Status.Feed name Failed → Rose (count_on (H.shelf shelf.old) name) (count_on (H.shelf shelf.new) name) }

    // What stays.
    ensures told { (H.shelf shelf.new).told ≡ (H.shelf shelf.old).told }
    ensures counts { (name : List ℕ) → count_on (H.shelf shelf.old) name ≤ count_on (H.shelf shelf.new) name }
    ensures disk_count { (D.disk disk).faults ≤ (D.disk result.1).faults }
    ensures sink_count { (S.sink out.old).faults ≤ (S.sink out.new).faults }
{
    match command_of(words) {
        None => (Status::Words, disk),
        Some(Command::Convert { feed }) => (convert_named(alloc, feed, shelf, out), disk),
        Some(Command::Check { bundle }) => (check(alloc, bundle, shelf, out), disk),
        Some(Command::Init { bundle }) => init(alloc, bundle, shelf, disk, out),
        Some(Command::Drain(ask)) => drain(alloc, ask, shelf, disk, out, clock),
        Some(Command::Status) => show(alloc, Shown::State, disk, out),
        Some(Command::Dumps) => show(alloc, Shown::Dumps, disk, out),
        Some(Command::Audit) => audit(alloc, disk, out),
        Some(Command::Redo { dump }) => redo(alloc, dump, disk, out, clock),
        Some(Command::Drill { lines, number }) => drill(alloc, lines, number, disk, out, clock),
    }
}
