//! What is answered to a case.
use crate::bots::{given, reported};
use crate::bundles::{fetched, named};
use crate::codes::{code, code_length, fronts, read};
use crate::facts::{facts, facts_of_code};
use crate::loads::{loaded, loaded_with};
use crate::notes::note;
use crate::parsers::{csv, json};
use crate::plans::planned;
use crate::settings::{module, own, shared, taken};
use base_types::OutOfMemory;
use std::alloc::{AllocError, Global};
use table_lines::repeated;

/// The lines of the answer to a case, `CALL: INPUT` or `CALL WORDS: INPUT`. A bundle stands as its runtime text and, each behind
/// ` | `, its files, `NAME=CONTENT`.
///
/// | Call | Input | Answer |
/// |---|---|---|
/// | `load` | a bundle | how many bots it has, or what is wrong with it |
/// | `bot MODULE` | parameters, as members of an object | the same of the bundle of a bot `p` that has them |
/// | `plan` | a bundle | its bots with their modules, parameters and paths |
/// | `facts` | a bundle | what the pipeline has to know of its bots |
/// | `facts-of-code` | bytes | the same of the bundle whose code they are |
/// | `report BOT` | a bundle and, behind ` <- `, a piece of a feed | the report of it |
/// | `give BOT` | a bundle and, behind ` <- ` each, messages | what the bot makes of one after the other |
/// | `csv` | columns, the delimiter with words, defaults, and a report's content | its events and its bad parts |
/// | `json STYLE` | defaults and a report's content | the same |
/// | `note` | a cause | the code and the text of its note |
/// | `module` | a value of JSON | the module that it names |
/// | `own` | the same | what the parameters of that module are where they aren't given |
/// | `shared` | `collector` or another word | the same of the parameters of all bots |
/// | `taken FORM` | a value of JSON | what a parameter of that form is taken as |
/// | `code` | a bundle | its code, and whether that reads back |
/// | `code-length` | a bundle | how many bytes its code has, and whether that reads back |
/// | `fronts` | a bundle | how many fronts of its code are no code |
/// | `read` | bytes | whether they are a bundle's code |
/// | `files` | a runtime text | the names of the files that it names |
/// | `fetch` | a shelf's files | the bundle `r.json` of that shelf, or the first name that it lacks |
pub fn answer(alloc: Global, line: &str) -> Result<String, AllocError> {
    let Some((call, input)) = line.split_once(": ") else {
        return "no case".to_string(alloc);
    };
    match answer_to(alloc, call, input) {
        Ok(answer) => Ok(answer),
        Err(OutOfMemory) => Err(AllocError),
    }
}

fn answer_to(alloc: Global, call: &str, input: &str) -> Result<String, OutOfMemory> {
    let input = repeated(alloc, input)?;
    let input = input.as_str();
    match call.split_once(' ') {
        Some((call, words)) => answer_with(alloc, call, words, input),
        None => answer_alone(alloc, call, input),
    }
}

fn answer_with(alloc: Global, call: &str, words: &str, input: &str) -> Result<String, OutOfMemory> {
    match call {
        "bot" => loaded_with(alloc, words, input),
        "report" => reported(alloc, words, input),
        "give" => given(alloc, words, input),
        "json" => json(alloc, words, input),
        "taken" => taken(alloc, words, input),
        _ => Ok("no call".to_string(alloc)?),
    }
}

fn answer_alone(alloc: Global, call: &str, input: &str) -> Result<String, OutOfMemory> {
    match call {
        "load" => loaded(alloc, input),
        "plan" => planned(alloc, input),
        "facts" => facts(alloc, input),
        "facts-of-code" => facts_of_code(alloc, input),
        "csv" => csv(alloc, input),
        "note" => note(alloc, input),
        "module" => module(alloc, input),
        "own" => own(alloc, input),
        "shared" => shared(alloc, input),
        "code" => code(alloc, input),
        "code-length" => code_length(alloc, input),
        "fronts" => fronts(alloc, input),
        "read" => read(alloc, input),
        "files" => named(alloc, input),
        "fetch" => fetched(alloc, input),
        _ => Ok("no call".to_string(alloc)?),
    }
}
