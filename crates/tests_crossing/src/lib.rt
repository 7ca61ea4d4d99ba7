//! What goes to another thread. Each function is accepted only where its type does.
#![tactic(auto)]

use ack_steps::Core;
use bot_rules::{IntelPlan, IntelRules, IntelWork};
use edge_memory::MemDisk;
use edge_traits::Disk;
use file_disk::{FolderDisk, TryLock};
use journal_book::Book;
use std::os::unix::fs::FileExt;
use std::rt::Files;
use step_code::Rules;

fn crosses<T: Send>() {}

pub fn plan_crosses() {
    crosses::<IntelPlan>();
}

pub fn work_crosses() {
    crosses::<IntelWork>();
}

pub fn core_crosses() {
    crosses::<Core<IntelRules>>();
}

pub fn book_crosses() {
    crosses::<Book<MemDisk, IntelRules>>();
}

pub fn stored_book_crosses<'a, F: Files + Sync + 'a>()
where
    F::File: FileExt + TryLock + Send,
{
    crosses::<Book<FolderDisk<'a, F>, IntelRules>>();
}

pub fn any_book_crosses<D: Disk + Send, R: Rules + Send>()
where
    R::Plan: Send,
{
    crosses::<Book<D, R>>();
}
