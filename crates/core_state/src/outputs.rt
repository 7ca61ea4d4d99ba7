//! What bots have written: so much that is sealed, and the lines behind it.
ghost use Rattle.std.specs.Prelude.{◌≡◌, ◌+◌, ◌<◌, ◌++◌, ◌∷◌, [], true, length, map, min, sum_by, position, vec_len, vec_capacity, IfOk, OnOk};
ghost use Rattle.base_types.specs.Number.{last_u64};
ghost use Rattle.std.specs.List.{list_any};
ghost use Rattle.step_code.specs.After.{written};
ghost use Rattle.step_code.specs.State.{is_out};
ghost use Rattle.core_state.specs.Outputs.{HasLength, HasLineRoom, HaveLengths, is_written_by, out_of, outs_of};
ghost use Rattle.core_state.specs.Sealing.{HasSmallOutput, HaveSmallOutputs, sealed_out};

use base_types::{Blob, BotName, LineList, OutOfMemory};
use std::alloc::{AllocError, Global};
use step_code::{OutList, Output};

/// What a bot has written: so many bytes and lines that are sealed in its file, and the lines behind them.
#[derive(Debug, Drop)]
pub struct Written {
    pub bot: BotName,
    pub sealed_bytes: u64,
    pub sealed_lines: u64,
    pub lines: Vec<Blob>,
    /// Of all of it, in bytes, each line with its newline. Where it passes the greatest number, that number stands for it.
    pub length: u64,
}

impl Written {
    /// The output of a bot that has written nothing. It takes no memory.
    pub fn new(alloc: Global, bot: &BotName) -> Self
        ensures new { out_of result ≡ record { bot = bot.now; sealed_bytes = 0; sealed_lines = 0; lines = [] } }
        ensures length { HasLength result }
    {
        Written {
            bot: *bot,
            sealed_bytes: 0,
            sealed_lines: 0,
            lines: Vec::new(alloc),
            length: 0,
        }
    }
}

pub fn place_of_output(outs: &[Written], bot: &BotName) -> Option<usize>
    ensures { result ≡ position (is_written_by bot.now) outs.now }
{
    outs.iter().position(|written| written.bot == *bot)
}

fn is_there(outs: &[Written], bot: &BotName) -> bool
    ensures { result ≡ list_any (is_written_by bot.now) outs.now }
{
    outs.iter().any(|written| written.bot == *bot)
}

pub fn has_output(outs: &[Written], bot: &BotName) -> bool
    ensures { result ≡ list_any (is_out bot.now) (outs_of outs.now) }
{
    is_there(outs, bot)
}

/// Makes room for a line of a bot, if it has an output. The outputs stay.
pub fn make_room(outs: &mut Vec<Written>, bot: &BotName) -> Result<(), AllocError>
    ensures same { outs_of outs.new.items ≡ outs_of outs.old.items }
    ensures lengths { HaveLengths outs.old.items → HaveLengths outs.new.items }
    ensures room { OnOk result (HasLineRoom bot.now outs.new.items) }
{
    match place_of_output(outs, bot) {
        Some(i) => outs[i].lines.reserve(1),
        None => Ok(()),
    }
}

fn add_line(written: &mut Written, line: Blob)
    requires { vec_len written.old.lines < vec_capacity written.old.lines }
    ensures added { out_of written.new ≡ record (out_of written.old) { lines = written.old.lines.items ++ line ∷ [] } }
    ensures length { HasLength written.old → HasLength written.new }
{
    written.length = written.length.saturating_add(line_length(&line));
    written.lines.push_reserved(line);
}

/// Puts a line at the end of the bot's output, if it has one, without memory.
pub fn write_line(outs: &mut Vec<Written>, bot: &BotName, line: Blob)
    requires { HasLineRoom bot.now outs.old.items }
    ensures written { outs_of outs.new.items ≡ written true bot.now line (outs_of outs.old.items) }
    ensures lengths { HaveLengths outs.old.items → HaveLengths outs.new.items }
{
    if let Some(i) = place_of_output(outs, bot) {
        add_line(&mut outs[i], line);
    }
}

fn copy_of_output(written: &Written, alloc: Global) -> Result<Output, OutOfMemory>
    ensures { IfOk result (λ copy. copy ≡ out_of written.now) }
{
    Ok(Output {
        bot: written.bot,
        sealed_bytes: written.sealed_bytes,
        sealed_lines: written.sealed_lines,
        lines: LineList::from(stored_types::copies(alloc, &written.lines)?),
    })
}

/// The outputs as lists.
pub fn copies(outs: &[Written], alloc: Global) -> Result<OutList, OutOfMemory>
    ensures { IfOk result (λ list. list ≡ outs_of outs.now) }
{
    let mut list = Vec::with_capacity(alloc, outs.len())?;
    'outs: for written in outs {
        list.push(copy_of_output(written, alloc)?)?;
    }
    Ok(OutList::from(list))
}

// With its newline.
fn line_length(line: &Blob) -> u64
    ensures { result ≡ min (length line.now + 1) last_u64 }
{
    (line.bytes().len() as u64).saturating_add(1)
}

fn lines_length(lines: &[Blob]) -> u64
    ensures { result ≡ min (sum_by (λ line. length line + 1) lines.now) last_u64 }
{
    let mut length: u64 = 0;
    'lines: for line in lines {
        length = length.saturating_add(line_length(line));
    }
    length
}

// It takes no memory.
fn from_list(out: Output) -> Written
    ensures same { out_of result ≡ out }
    ensures length { HasLength result }
{
    let length = lines_length(out.lines.as_slice()).saturating_add(out.sealed_bytes);
    Written {
        bot: out.bot,
        sealed_bytes: out.sealed_bytes,
        sealed_lines: out.sealed_lines,
        lines: out.lines.into_vec(),
        length,
    }
}

/// The outputs of these lists.
pub fn from_lists(list: OutList, alloc: Global) -> Result<Vec<Written>, OutOfMemory>
    ensures same { IfOk result (λ outs. outs_of outs.items ≡ list) }
    ensures lengths { IfOk result (λ outs. HaveLengths outs.items) }
{
    let mut outs = Vec::with_capacity(alloc, list.len())?;
    'outs: for out in list.into_vec() {
        outs.push(from_list(out))?;
    }
    Ok(outs)
}

// With all of its lines sealed. Want of memory also where 64 bits don't hold its bytes or its lines. A length that is the
// greatest number may stand for a greater one.
fn sealed_copy(written: &Written, alloc: Global) -> Result<Output, OutOfMemory>
    requires { HasLength written.now }
    ensures copy { IfOk result (λ copy. copy ≡ sealed_out (out_of written.now)) }
    ensures small { OnOk result (HasSmallOutput (out_of written.now)) }
{
    let lines = written.lines.len() as u64;
    let Some(sealed_lines) = written.sealed_lines.checked_add(lines) else {
        return Err(OutOfMemory);
    };
    if written.length == u64::MAX {
        return Err(OutOfMemory);
    }
    Ok(Output {
        bot: written.bot,
        sealed_bytes: written.length,
        sealed_lines,
        lines: LineList::from(Vec::new(alloc)),
    })
}

/// The outputs as lists, with all of their lines sealed. Want of memory also where 64 bits don't hold the bytes or the lines
/// of one.
pub fn sealed_copies(outs: &[Written], alloc: Global) -> Result<OutList, OutOfMemory>
    requires { HaveLengths outs.now }
    ensures list { IfOk result (λ list. list ≡ map sealed_out (outs_of outs.now)) }
    ensures small { OnOk result (HaveSmallOutputs (outs_of outs.now)) }
{
    let mut list = Vec::with_capacity(alloc, outs.len())?;
    'outs: for written in outs {
        list.push(sealed_copy(written, alloc)?)?;
    }
    Ok(OutList::from(list))
}

// Seals all lines of an output, and drops them.
fn seal(written: &mut Written, alloc: Global)
    requires length { HasLength written.old }
    requires small { HasSmallOutput (out_of written.old) }
    ensures sealed { out_of written.new ≡ sealed_out (out_of written.old) }
    ensures length { HasLength written.new }
{
    written.sealed_bytes = written.length;
    written.sealed_lines += written.lines.len() as u64;
    written.lines = Vec::new(alloc);
}

/// Seals all lines of all outputs, and drops them. It takes no memory.
pub fn seal_all(outs: &mut Vec<Written>, alloc: Global)
    requires lengths { HaveLengths outs.old.items }
    requires small { HaveSmallOutputs (outs_of outs.old.items) }
    ensures sealed { outs_of outs.new.items ≡ map sealed_out (outs_of outs.old.items) }
    ensures lengths { HaveLengths outs.new.items }
{
    'outs: for written in outs.iter_mut() {
        seal(written, alloc);
    }
}
