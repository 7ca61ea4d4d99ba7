ghost use Rattle.std.specs.Prelude.{◌≡◌};
ghost use Rattle.audit_command.specs.Audited.{closed_end, fault_end};

use journal_book::BookFault;
use store_audit::AuditFault;

/// How an audit ended.
#[derive(Clone, Copy, Debug, PartialEq, Eq)]
pub enum AuditEnd {
    /// The rules allow the whole history, and that was printed.
    Legal,
    /// The step of this number is the first that the rules don't allow.
    Illegal { step: u64 },
    /// The bytes of a file from this offset on are none that a store has there.
    Damaged { file: u64, at: u64 },
    /// The root has so many bytes: there is no store.
    Store { have: u64 },
    /// The disk failed.
    Disk,
    /// The output failed.
    Sink,
    /// There was no memory.
    Memory,
}

// What comes of a store that can't be opened.
pub(crate) fn closed_end(fault: BookFault) -> AuditEnd
    ensures { result ≡ closed_end fault }
{
    match fault {
        BookFault::Disk => AuditEnd::Disk,
        BookFault::Damaged { file, at } => AuditEnd::Damaged { file, at },
        BookFault::Store { have } => AuditEnd::Store { have },
        BookFault::Refused | BookFault::OutOfMemory => AuditEnd::Memory,
    }
}

// What comes of an audit without a verdict.
pub(crate) fn fault_end(fault: AuditFault) -> AuditEnd
    ensures { result ≡ fault_end fault }
{
    match fault {
        AuditFault::Disk => AuditEnd::Disk,
        AuditFault::OutOfMemory => AuditEnd::Memory,
    }
}
