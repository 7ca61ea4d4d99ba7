//! What the words of a command line ask for.
use base_types::{OutOfMemory, Text};
use command_words::{Ask, Command, command_of, run_of};
use std::alloc::Global;

/// The command that words are, which stand with a blank between two.
pub fn command(alloc: Global, line: &str) -> Result<String, OutOfMemory> {
    let words = words_of(alloc, line)?;
    shown(alloc, command_of(&words))
}

/// What words ask of bots on threads.
pub fn run(alloc: Global, line: &str) -> Result<String, OutOfMemory> {
    let words = words_of(alloc, line)?;
    match run_of(&words) {
        None => Ok(String::from_str(alloc, "none")?),
        Some(run) => {
            let text = asked(alloc, "run", run.ask)?;
            let stay = run.stay;
            Ok(format!(in alloc; "{}, stay {stay}", text.as_str())?)
        }
    }
}

fn words_of(alloc: Global, line: &str) -> Result<Vec<Text>, OutOfMemory> {
    let mut words = Vec::new(alloc);
    for word in line.split(' ') {
        words.push(Text::from(String::from_str(alloc, word)?))?;
    }
    Ok(words)
}

/// The command that no words are.
pub fn no_words(alloc: Global) -> Result<String, OutOfMemory> {
    shown(alloc, command_of(&[]))
}

fn shown(alloc: Global, command: Option<Command<'_>>) -> Result<String, OutOfMemory> {
    match command {
        None => Ok(String::from_str(alloc, "none")?),
        Some(Command::Convert { feed }) => Ok(format!(in alloc; "convert {}", feed.as_str())?),
        Some(Command::Check { bundle }) => Ok(format!(in alloc; "check {}", bundle.as_str())?),
        Some(Command::Init { bundle }) => Ok(format!(in alloc; "init {}", bundle.as_str())?),
        Some(Command::Status) => Ok(String::from_str(alloc, "status")?),
        Some(Command::Dumps) => Ok(String::from_str(alloc, "dumps")?),
        Some(Command::Audit) => Ok(String::from_str(alloc, "audit")?),
        Some(Command::Redo { dump }) => Ok(format!(in alloc; "redo {dump}")?),
        Some(Command::Drill { lines, number }) => {
            Ok(format!(in alloc; "drill, lines {lines}, number {number}")?)
        }
        Some(Command::Drain(ask)) => asked(alloc, "drain", ask),
    }
}

fn asked(alloc: Global, word: &str, ask: Ask<'_>) -> Result<String, OutOfMemory> {
    let steps = match ask.steps {
        Some(steps) => format!(in alloc; "{steps}")?,
        None => String::from_str(alloc, "none")?,
    };
    let reload = match ask.reload {
        Some(name) => name.as_str(),
        None => "none",
    };
    let round = ask.round;
    Ok(format!(in alloc; "{word}, steps {steps}, reload {reload}, round {round}")?)
}
