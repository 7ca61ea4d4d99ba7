ghost use Rattle.std.specs.Prelude.{◌≡◌, ◌≤◌};
ghost use Rattle.state_texts.specs.Texts.{state_text, summary};
ghost use Rattle.store_commands.specs.Ends.{shown_text, IsPrinted};

use crate::StoreEnd;
use ack_steps::Core;
use base_types::OutOfMemory;
use edge_traits::{Failed, Sink, write_all};
use state_texts::{state_text, summary_text};
use std::alloc::Global;
use step_code::Rules;

/// What is shown of a state.
#[derive(Clone, Copy, Debug, PartialEq, Eq)]
pub enum Shown {
    /// The summary, and a line for each queue, full hand, collector, output and halted bot.
    State,
    /// A line of JSON for each dump.
    Dumps,
}

// Prints what is asked for. Nothing is printed where memory runs out.
pub(crate) fn print<R: Rules, S: Sink>(
    alloc: Global,
    core: &Core<R>,
    what: Shown,
    out: &mut S,
) -> StoreEnd
    ensures printed { IsPrinted (shown_text what core.now.state) result (S.sink out.old) (S.sink out.new) }
    ensures count { (S.sink out.old).faults ≤ (S.sink out.new).faults }
{
    match what {
        Shown::State => print_state(alloc, core, out),
        Shown::Dumps => match core.dumps().export(out) {
            Ok(()) => StoreEnd::Done,
            Err(_) => StoreEnd::Sink,
        },
    }
}

fn print_state<R: Rules, S: Sink>(alloc: Global, core: &Core<R>, out: &mut S) -> StoreEnd
    ensures printed { IsPrinted (state_text core.now.state) result (S.sink out.old) (S.sink out.new) }
    ensures count { (S.sink out.old).faults ≤ (S.sink out.new).faults }
{
    let text = match state_text(alloc, core) {
        Ok(text) => text,
        Err(OutOfMemory) => return StoreEnd::Memory,
    };
    match write_all(out, text.bytes()) {
        Ok(()) => StoreEnd::Done,
        Err(Failed) => StoreEnd::Sink,
    }
}

/// Prints the summary of a state, and answers `Done`, `Sink` where the output failed, or `Memory`: nothing is printed then.
pub(crate) fn print_summary<R: Rules, S: Sink>(
    alloc: Global,
    core: &Core<R>,
    out: &mut S,
) -> StoreEnd
    ensures printed { IsPrinted (summary core.now.state) result (S.sink out.old) (S.sink out.new) }
    ensures count { (S.sink out.old).faults ≤ (S.sink out.new).faults }
{
    let counts = match summary_text(alloc, core) {
        Ok(counts) => counts,
        Err(OutOfMemory) => return StoreEnd::Memory,
    };
    match write_all(out, counts.bytes()) {
        Ok(()) => StoreEnd::Done,
        Err(_) => StoreEnd::Sink,
    }
}
