//! A line of control, and what it asks for.
ghost use Rattle.std.specs.Prelude.{◌≡◌, IfOk};
ghost use Rattle.live_reload.specs.Control.{control_in, name_in, reload_in};

use base_types::{OutOfMemory, Text, TextFault};
use command_words::is_name;
use std::alloc::Global;

/// What a line of control asks for.
#[derive(Debug, Drop, PartialEq, Eq)]
pub enum Control {
    /// The bundle of this name is put in force.
    Reload(Text),
    /// Feeds that were read to their ends begin anew.
    Round,
    /// The run ends.
    Stop,
    /// Nothing: the line is none of these.
    Bad,
}

/// What a line of control asks for: `reload NAME`, `round` or `stop`, byte by byte. It comes without its newline.
///
/// # Errors
///
/// There was no memory for the name.
pub fn read_control(alloc: Global, line: &[u8]) -> Result<Control, OutOfMemory>
    ensures { IfOk result (λ control. control ≡ control_in line.now) }
{
    if line == b"round".as_slice() {
        Ok(Control::Round)
    } else if line == b"stop".as_slice() {
        Ok(Control::Stop)
    } else {
        read_reload(alloc, line)
    }
}

fn read_reload(alloc: Global, line: &[u8]) -> Result<Control, OutOfMemory>
    ensures { IfOk result (λ control. control ≡ reload_in line.now) }
{
    match line.strip_prefix(b"reload ") {
        Some(name) => read_name(alloc, name),
        None => Ok(Control::Bad),
    }
}

fn read_name(alloc: Global, name: &[u8]) -> Result<Control, OutOfMemory>
    ensures { IfOk result (λ control. control ≡ name_in name.now) }
{
    if !is_name(name) {
        return Ok(Control::Bad);
    }
    match Text::new(alloc, name) {
        Ok(name) => Ok(Control::Reload(name)),
        Err(TextFault::Utf8 { at: _ }) => Ok(Control::Bad),
        Err(TextFault::OutOfMemory) => Err(OutOfMemory),
    }
}
