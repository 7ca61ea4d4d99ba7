ghost use Rattle.std.specs.Prelude.{◌≡◌, [], ◌∷◌, ◌++◌, IfOk, OnOk};
ghost use Rattle.sieve_eval.specs.Runs.{with_paths};
ghost use Rattle.sieve_eval.specs.Verdicts.{at_first, default_path};

use base_types::{OutOfMemory, Text, TextList};
use event_model::{Fields, PlaceHint};
use std::alloc::Global;

/// An event while items run: its fields, the paths on which it goes, and where a field was set last.
#[derive(Drop)]
pub struct State {
    pub fields: Fields,
    pub paths: TextList,
    pub place: PlaceHint,
}

/// How the run goes on behind an item.
#[derive(Clone, Copy)]
pub enum Flow {
    On,
    /// It ends, and the event is forwarded.
    Keep,
    /// It ends, and the event is dropped.
    Drop,
}

// Most sieves add no more fields than this.
const ADDED_FIELDS: usize = 8;

fn default_paths(alloc: Global) -> Result<TextList, OutOfMemory>
    ensures { IfOk result (λ paths. paths ≡ default_path ∷ []) }
{
    let mut paths = TextList::new(alloc);
    let path = Text::from(String::from_str(alloc, "_default")?);
    let Ok(()) = paths.push(path) else {
        return Err(OutOfMemory);
    };
    Ok(paths)
}

/// The event before the first item.
pub fn at_first(alloc: Global, fields: &Fields) -> Result<State, OutOfMemory>
    ensures { IfOk result (λ state. state ≡ at_first fields.now) }
{
    Ok(State {
        fields: fields.copy_with_room(alloc, ADDED_FIELDS)?,
        paths: default_paths(alloc)?,
        place: PlaceHint::new(),
    })
}

// Puts copies of texts behind those of a list.
fn append(alloc: Global, texts: &mut TextList, more: &[Text]) -> Result<(), OutOfMemory>
    ensures { OnOk result (texts.new ≡ texts.old ++ more.now) }
{
    'more: for text in more {
        let Ok(()) = texts.push(text.copy(alloc)?) else {
            return Err(OutOfMemory);
        };
    }
    Ok(())
}

/// Sends the event on these paths alone.
pub fn set_paths(alloc: Global, state: &mut State, names: &[Text]) -> Result<(), OutOfMemory>
    ensures { OnOk result (state.new ≡ with_paths state.old names.now) }
{
    state.paths = TextList::new(alloc);
    append(alloc, &mut state.paths, names)
}
