//! What the words of a command line do where there may be threads.
ghost use Rattle.std.specs.Prelude.{◌≡◌, ◌↔◌, false};
ghost use Rattle.pipeline_top.specs.Commands.{is_pipeline};
ghost use Rattle.system_run.specs.CommandLine.{is_command_or_run};

use crate::clock::SystemClock;
use crate::command_line::{command_line, run_alone, told};
use crate::control::ControlFile;
use crate::gate::SystemGate;
use crate::progress::Progress;
use crate::shelf::FileShelf;
use crate::sink::WriterSink;
use crate::watched::Watched;
use base_types::{OutOfMemory, Text};
use command_words::{command_of, run_of};
use file_disk::{FolderDisk, TryLock};
use pipeline_top::{Status, run_pipeline};
use std::io;
use std::os::unix::fs::FileExt;
use std::rt::{Clock, Env, Files};
use std::sync::Wait;
use std::thread::Threads;

/// Does what the command line of a system says, as `run` does, and has the bots of a store run on threads where it says so. Answers the
/// exit status.
pub fn run_threaded<R>(rt: &R, is_terminal: bool) -> u8
where
    R: Files + Env + Clock + Print + Eprint + AllocGlobal + Threads + Wait + Sync + Drop,
    R::File: FileExt + TryLock + Send,
    R::Dir: Send,
{
    match command_line(rt) {
        Ok(words) => exit_status(rt, is_terminal, &words),
        Err(status) => told(rt, &status),
    }
}

// Does what the words say. Answers the exit status, which is 2 exactly where they are no command and don't ask for threads.
fn exit_status<R>(rt: &R, is_terminal: bool, words: &[Text]) -> u8
where
    R: Files + Clock + Print + Eprint + AllocGlobal + Threads + Wait + Sync + Drop,
    R::File: FileExt + TryLock + Send,
    R::Dir: Send,
    ensures { (result ≡ 2) ↔ (is_command_or_run words.now ≡ false) }
{
    told(rt, &run_words(rt, is_terminal, words))
}

fn run_words<R>(rt: &R, is_terminal: bool, words: &[Text]) -> Status
where
    R: Files + Clock + Print + Eprint + AllocGlobal + Threads + Wait + Sync + Drop,
    R::File: FileExt + TryLock + Send,
    R::Dir: Send,
    ensures { (result ≡ Status.Words) ↔ (is_command_or_run words.now ≡ false) }
{
    match words {
        [] => Status::Words,
        [word] => run_alone(rt, word),
        [store, command @ ..] => run_on_threads(rt, is_terminal, store, command),
    }
}

// Runs a command, or bots on threads, over the system's files, clock and standard output, on the store in this folder.
fn run_on_threads<R>(rt: &R, is_terminal: bool, store: &Text, words: &[Text]) -> Status
where
    R: Files + Clock + Print + Eprint + AllocGlobal + Threads + Wait + Sync + Drop,
    R::File: FileExt + TryLock + Send,
    R::Dir: Send,
    ensures { (result ≡ Status.Words) ↔ (is_pipeline words.now ≡ false) }
{
    let alloc = rt.alloc();
    let mut control = match ControlFile::new(alloc, rt, store) {
        Ok(control) => control,
        Err(OutOfMemory) => return without_memory(words),
    };
    let progress = Progress::new(rt, is_terminal);
    let mut shelf = Watched::new(FileShelf::new(alloc, rt), &progress);
    let disk = Watched::new(FolderDisk::new(alloc, rt, store), &progress);
    let mut out = Watched::new(WriterSink::new(io::writer(rt)), &progress);
    let clock = Watched::new(SystemClock::new(rt), &progress);
    let gate = SystemGate::new(rt);
    let (status, _disk) = run_pipeline(
        rt,
        alloc,
        words,
        &mut control,
        &mut shelf,
        disk,
        &mut out,
        &clock,
        &gate,
    );
    progress.clear();
    status
}

// The status where there is no memory for what the words ask for.
fn without_memory(words: &[Text]) -> Status
    ensures { (result ≡ Status.Words) ↔ (is_pipeline words.now ≡ false) }
{
    if run_of(words).is_some() || command_of(words).is_some() {
        Status::Memory
    } else {
        Status::Words
    }
}
