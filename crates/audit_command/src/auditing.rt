ghost use Rattle.std.specs.Prelude.{◌≡◌, ◌≢◌, ◌≤◌, List, Some, IfSome};
ghost use Rattle.edge_traits.specs.Count.{Rose};
ghost use Rattle.edge_traits.specs.Disk.{Image};
ghost use Rattle.step_code.specs.declared.step.Step.{Step};
ghost use Rattle.store_image.specs.Stands.{Origin};
ghost use Rattle.journal_book.specs.Alone.{IsBeside, LeavesAlone};
ghost use Rattle.journal_book.specs.Opening.{StandsNow};
ghost use Rattle.book_runs.specs.Calls.{StandsOn};
ghost use Rattle.audit_command.specs.Audited.{IsAuditOf, IsTold};

use crate::AuditEnd;
use crate::end::{closed_end, fault_end};
use edge_traits::{Disk, Failed, Sink, write_all};
use generation_reading::Lent;
use journal_book::Book;
use std::alloc::Global;
use step_code::Rules;
use store_audit::{Verdict, audit_store};
use store_commands::STEP_BYTES;
use store_image::ROOT;

fn print_legal<S: Sink>(alloc: Global, steps: u64, out: &mut S) -> AuditEnd
    ensures told { IsTold (Verdict.Legal steps) result (S.sink out.old) (S.sink out.new) }
    ensures count { (S.sink out.old).faults ≤ (S.sink out.new).faults }
{
    let text = match format!(in alloc; "legal {steps}\n") {
        Ok(text) => text,
        Err(_) => return AuditEnd::Memory,
    };
    match write_all(out, text.as_bytes()) {
        Ok(()) => AuditEnd::Legal,
        Err(Failed) => AuditEnd::Sink,
    }
}

// Tells what a store comes to that opens. Its root isn't damaged then, unless the disk reads otherwise each time.
fn tell<S: Sink>(alloc: Global, found: Option<Verdict>, out: &mut S) -> AuditEnd
    ensures told { IfSome found (λ verdict. IsTold verdict result (S.sink out.old) (S.sink out.new)) }
    ensures disk { result ≢ AuditEnd.Disk }
    ensures sink { result ≡ AuditEnd.Sink → Rose (S.sink out.old).faults (S.sink out.new).faults }
    ensures count { (S.sink out.old).faults ≤ (S.sink out.new).faults }
{
    match found {
        Some(Verdict::Legal { steps }) => print_legal(alloc, steps, out),
        Some(Verdict::Illegal { step }) => AuditEnd::Illegal { step },
        Some(Verdict::Damaged { file, at }) => AuditEnd::Damaged { file, at },
        None => AuditEnd::Damaged { file: ROOT, at: 0 },
    }
}

/// Goes through all generations of a store, opens it, and tells what they come to. No step is made. The disk comes back.
pub fn audit<D: Disk, R: Rules, S: Sink>(
    alloc: Global,
    disk: D,
    rules: &R,
    out: &mut S,
) -> (AuditEnd, D)
    // Where the disk tells what it holds: what the store comes to, or what it is refused for, and what is printed.
    ensures audited { (files : Image) → (D.disk disk).told ≡ Some files
        → IsAuditOf R.meaning files result.0 (S.sink out.old) (S.sink out.new) }

    // At any moment of the call, and behind it, the disk stands for the history that it stood for.
    ensures stands { (origin : Origin) (steps more : List Step) → StandsNow R.meaning origin steps more (D.disk disk)
        → StandsOn R.meaning origin steps more (D.disk disk) (D.disk result.1) }

    // The files that are none of its own are left alone, where the disk tells what it holds.
    ensures others { (files : Image) → (D.disk disk).told ≡ Some files → LeavesAlone (D.disk disk) (D.disk result.1) (IsBeside files) }

    // The outside failed, as its counts show.
    ensures disk { result.0 ≡ AuditEnd.Disk → Rose (D.disk disk).faults (D.disk result.1).faults }
    ensures sink { result.0 ≡ AuditEnd.Sink → Rose (S.sink out.old).faults (S.sink out.new).faults }
    ensures disk_count { (D.disk disk).faults ≤ (D.disk result.1).faults }
    ensures sink_count { (S.sink out.old).faults ≤ (S.sink out.new).faults }
{
    let mut disk = disk;
    let found = match audit_store(alloc, &mut disk, rules) {
        Ok(found) => found,
        Err(fault) => return (fault_end(fault), disk),
    };
    // What opening answers comes first.
    match Book::reopen(alloc, disk, Lent { rules }, STEP_BYTES) {
        Ok(book) => {
            let end = tell(alloc, found, out);
            (end, book.into_disk())
        }
        Err((fault, disk)) => (closed_end(fault), disk),
    }
}
