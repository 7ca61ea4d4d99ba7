//! What opening a store finds.
ghost use Rattle.std.specs.Prelude.{◌≡◌, false};

use crate::books::{opened, state_code};
use crate::recount::Found;
use base_types::Blob;
use edge_traits::Disk;
use journal_book::{Book, BookFault};
use std::alloc::Global;
use std::test::Fail;
use step_code::Rules;

/// What opening found, and of a store that opened the code of its state.
#[derive(Drop)]
pub struct Seen {
    pub found: Found,
    pub state: Blob,
}

fn seen_of<D: Disk, R: Rules>(alloc: Global, book: &Book<D, R>) -> Result<Seen, Fail> {
    Ok(Seen {
        found: Found::Steps(book.durable()),
        state: state_code(alloc, book)?,
    })
}

fn unopened(alloc: Global, fault: BookFault) -> Result<Seen, Fail> {
    let BookFault::Damaged { file, at } = fault else {
        return Err(Fail::from("neither opened nor damaged"));
    };
    Ok(Seen {
        found: Found::Damaged { file, at },
        state: Blob::new(alloc, b"")?,
    })
}

/// Opens the store of a disk. The disk comes back.
pub fn reopen<D: Disk, R: Rules>(alloc: Global, disk: D, rules: R) -> (Result<Seen, Fail>, D) {
    match opened(alloc, disk, rules) {
        Ok(book) => {
            let seen = seen_of(alloc, &book);
            (seen, book.into_disk())
        }
        Err((fault, disk)) => (unopened(alloc, fault), disk),
    }
}

fn completed<D: Disk, R: Rules>(book: Book<D, R>) -> (Result<(), BookFault>, D)
    requires { book.broken ≡ false }
{
    let mut book = book;
    let end = book.bring_up();
    (end, book.into_disk())
}

/// Opens the store of a disk, and completes the files of its outputs. The disk comes back.
pub fn complete<D: Disk, R: Rules>(alloc: Global, disk: D, rules: R) -> (Result<(), BookFault>, D) {
    match opened(alloc, disk, rules) {
        Ok(book) => completed(book),
        Err((fault, disk)) => (Err(fault), disk),
    }
}
