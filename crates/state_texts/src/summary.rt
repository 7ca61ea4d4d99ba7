ghost use Rattle.std.specs.Prelude.{◌≡◌, ◌+◌, ◌++◌, length, sum_by, IfOk, OnOk};
ghost use Rattle.state_texts.specs.Texts.{lines_of, messages_in, processed_in, summary};

use crate::line::put_count;
use ack_steps::{Core, OutputLook};
use base_types::{Blob, OutOfMemory};
use std::alloc::Global;
use step_code::Rules;

/// The lines of an output: those that are sealed in its file, and those behind them.
pub fn lines_of(out: &OutputLook<'_>) -> u128
    ensures { result ≡ out.now.sealed_lines + length out.now.lines.now }
{
    out.sealed_lines as u128 + out.lines.len() as u128
}

// The lines of all outputs. A sum that passes 128 bits is want of memory.
fn lines_in<R: Rules>(core: &Core<R>) -> Result<u128, OutOfMemory>
    ensures { IfOk result (λ lines. lines ≡ sum_by lines_of core.now.state.outs) }
{
    let mut lines = 0u128;
    'outs: for slot in 0..core.outs_len() {
        lines = match lines.checked_add(lines_of(&core.out_at(slot))) {
            Some(sum) => sum,
            None => return Err(OutOfMemory),
        };
    }
    Ok(lines)
}

// The messages that were made.
fn messages_in<R: Rules>(core: &Core<R>) -> u64
    ensures { result ≡ messages_in core.now.state }
{
    core.next_message().saturating_sub(1)
}

// The messages that were made and are in no queue, in no hand and in no dump.
fn processed_in<R: Rules>(core: &Core<R>) -> u64
    ensures { result ≡ processed_in core.now.state }
{
    messages_in(core)
        .saturating_sub(core.waiting_len())
        .saturating_sub(core.hands_len() as u64)
        .saturating_sub(core.dumps().len() as u64)
}

/// Puts the summary behind the text.
pub fn put_summary<R: Rules>(text: &mut Blob, core: &Core<R>) -> Result<(), OutOfMemory>
    ensures { OnOk result (text.new ≡ text.old ++ summary core.now.state) }
{
    put_count(text, "steps", core.steps() as u128)?;
    put_count(text, "bundle", core.bundle_no() as u128)?;
    put_count(text, "messages", messages_in(core) as u128)?;
    put_count(text, "waiting", core.waiting_len() as u128)?;
    put_count(text, "in hand", core.hands_len() as u128)?;
    put_count(text, "dumped", core.dumps().len() as u128)?;
    put_count(text, "processed", processed_in(core) as u128)?;
    put_count(text, "lines", lines_in(core)?)
}

/// What a state counts, a line each.
pub fn summary_text<R: Rules>(alloc: Global, core: &Core<R>) -> Result<Blob, OutOfMemory>
    ensures { IfOk result (λ text. text ≡ summary core.now.state) }
{
    let mut text = Blob::from(Vec::new(alloc));
    put_summary(&mut text, core)?;
    Ok(text)
}
