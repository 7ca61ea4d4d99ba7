//! What the words of a command line do.
ghost use Rattle.std.specs.Prelude.{◌≡◌, ◌≢◌, ◌↔◌, false, is_some};
ghost use Rattle.status_texts.specs.StatusText.{number_of};
ghost use Rattle.command_words.specs.Words.{command_of};
ghost use Rattle.system_run.specs.CommandLine.{is_command, stands_alone};

use crate::clock::SystemClock;
use crate::progress::Progress;
use crate::shelf::FileShelf;
use crate::sink::WriterSink;
use crate::watched::Watched;
use base_types::Text;
use file_disk::{FolderDisk, TryLock};
use pipeline_top::{Status, run_tool};
use std::os::unix::fs::FileExt;
use std::rt::{Clock, Env, Files};
use std::{env, io};

const HELP: &str = "\
intelpipe STORE COMMAND [--NAME VALUE]...
intelpipe --help | --version

Runs feeds of security events through a pipeline of bots. Each message is kept in a store until it is processed.

STORE is the folder of the store; for check and convert it is any word.

Make a store, and run its bots:
  init --bundle NAME     make a store for the bots of a bundle
                           intelpipe out/demo init --bundle examples/pipeline/bundle.json
  drain                  run the bots until nothing is left to do
    --steps N            make at most so many steps
    --reload NAME        put another bundle in force first
    --round new          read the feeds that were read to their ends once more
                           intelpipe out/demo drain --round new
  run                    the same, with a thread for each instance of a bot; it takes what drain takes
                           intelpipe out/demo run

Look at a store, and mend it:
  status                 print what waits, what is in hand, how far feeds are read, and which file is which output
                           intelpipe out/demo status
  dumps                  print the messages that were put aside, a line each, with their faults
                           intelpipe out/demo dumps
  redo --dump NO         put the message of a dump back into the queue of its bot
                           intelpipe out/demo redo --dump 1
  audit                  check each step of the whole history with the rules
                           intelpipe out/demo audit

Without a store:
  check --bundle NAME    print how many bots a bundle has, or its first fault
                           intelpipe any check --bundle examples/pipeline/bundle.json
  convert --feed NAME    write each event of a feed, a line each, to standard output
                           intelpipe any convert --feed examples/events.json

Try it on a made feed:
  drill --lines N --number S
                         make a store, and drain a feed of so many lines into it that the number gives
                           intelpipe out/drill drill --lines 2000 --number 7

Exit status:
   0  done
   1  no memory
   2  the words are no command
   3  the bundle has a fault: its number and its bot
   4  a feed or a file of the bundle is absent, or can't be read
   5  the store's files failed
   6  standard output failed
   7  the store is damaged: the number of the file and the offset
   8  so many steps were made, and something is left to do
   9  the store is full
  10  a feed is shorter than what was read of it
  11  a bot that is to stop at a fault has stopped
  12  a line of a feed passes 1,048,576 bytes
  13  a feed passes 1,073,741,824 bytes
  14  there is no store; for init and drill: there is one
  15  there is no such dump
  16  a step of the history isn't one that the rules allow: its number
  17  a line of the feed is no event or report; those before it are written
  18  a number is used up

A command that takes longer than a second says on a terminal how far it is.

README.md in the folder of the sources says what to do at each status, docs/FORMATS.md what a bundle may have, and docs/INTELMQ.md
where somebody who knows IntelMQ finds what.
";

const VERSION: &str = "intelpipe 0.1.0\n";

/// Does what the command line of a system says, over its files, clock and standard output. Where standard error is a terminal, a command
/// that takes longer than a second says there how far it is. Answers the exit status.
pub fn run<R: Files + Env + Clock + Print + Eprint + AllocGlobal + Drop>(
    rt: &R,
    is_terminal: bool,
) -> u8
where
    R::File: FileExt + TryLock,
{
    match command_line(rt) {
        Ok(words) => exit_status(rt, is_terminal, &words),
        Err(status) => told(rt, &status),
    }
}

// Does what the words say. Answers the exit status, which is 2 exactly where they are no command.
fn exit_status<R: Files + Clock + Print + Eprint + AllocGlobal + Drop>(
    rt: &R,
    is_terminal: bool,
    words: &[Text],
) -> u8
where
    R::File: FileExt + TryLock,
    ensures { (result ≡ 2) ↔ (is_command words.now ≡ false) }
{
    told(rt, &run_words(rt, is_terminal, words))
}

/// Tells how it ended, unless all is done. Answers the exit status.
pub(crate) fn told<E: Eprint>(rt: &E, status: &Status) -> u8
    ensures { result ≡ number_of status.now }
{
    if *status != Status::Done {
        // Nothing is left to tell of a failure here.
        let _ = eprintln!(rt; "intelpipe: {status}");
    }
    status.number()
}

/// The words of the command line without the program's name.
pub(crate) fn command_line<R: Env + AllocGlobal>(rt: &R) -> Result<Vec<Text>, Status> {
    let arguments = match env::args(rt) {
        Ok(arguments) => arguments,
        Err(e) if e.kind() == io::ErrorKind::OutOfMemory => return Err(Status::Memory),
        Err(_) => return Err(Status::Words),
    };
    let mut words = Vec::new(rt.alloc());
    for argument in arguments.skip(1) {
        if words.push(Text::from(argument)).is_err() {
            return Err(Status::Memory);
        }
    }
    Ok(words)
}

fn run_words<R: Files + Clock + Print + Eprint + AllocGlobal + Drop>(
    rt: &R,
    is_terminal: bool,
    words: &[Text],
) -> Status
where
    R::File: FileExt + TryLock,
    ensures { (result ≡ Status.Words) ↔ (is_command words.now ≡ false) }
{
    match words {
        [] => Status::Words,
        [word] => run_alone(rt, word),
        [store, command @ ..] => run_command(rt, is_terminal, store, command),
    }
}

/// Does what a word says that stands alone.
pub(crate) fn run_alone<R: Print>(rt: &R, word: &Text) -> Status
    ensures { (result ≡ Status.Words) ↔ (stands_alone word.now ≡ false) }
{
    if word.as_str() == "--help" {
        return show(rt, HELP);
    }
    if word.as_str() == "--version" {
        return show(rt, VERSION);
    }
    Status::Words
}

fn show<P: Print>(rt: &P, text: &str) -> Status
    ensures { result ≢ Status.Words }
{
    match print!(rt; "{text}") {
        Ok(()) => Status::Done,
        Err(_) => Status::Sink,
    }
}

// Runs a command over the system's files, clock and standard output, on the store in this folder.
fn run_command<R: Files + Clock + Print + Eprint + AllocGlobal + Drop>(
    rt: &R,
    is_terminal: bool,
    store: &Text,
    words: &[Text],
) -> Status
where
    R::File: FileExt + TryLock,
    ensures { (result ≡ Status.Words) ↔ (is_some (command_of words.now) ≡ false) }
{
    let alloc = rt.alloc();
    let progress = Progress::new(rt, is_terminal);
    let mut shelf = Watched::new(FileShelf::new(alloc, rt), &progress);
    let disk = Watched::new(FolderDisk::new(alloc, rt, store), &progress);
    let mut out = Watched::new(WriterSink::new(io::writer(rt)), &progress);
    let clock = Watched::new(SystemClock::new(rt), &progress);
    let (status, _disk) = run_tool(alloc, words, &mut shelf, disk, &mut out, &clock);
    progress.clear();
    status
}
