ghost use Rattle.std.specs.Prelude.{◌≡◌, ◌≢◌, ◌⊎◌, ◌↔◌, ◌<◌, ◌≤◌, ◌+◌, ◌-◌, ◌++◌, [], ◌∷◌, ℕ, List, Bool, true, false, length, take, Some, None, Ok, Err, IfOk, IfErr, OnOk, OnErr, IsErrOf, IsErr};
ghost use Rattle.edge_traits.specs.Count.{Rose};
ghost use Rattle.edge_traits.specs.Disk.{Image, overwritten, ChangesOnly, Adds, Only, Leaves, LeavesOthers};
ghost use Rattle.disk_journal.specs.GateFile.{header_length, frame_length, longest_journal, gate_file, HasBodies, HasOldOrNew, HaveSameBodies};
ghost use Rattle.disk_journal.specs.Appending.{shut_record, IsAtEnd, IsRecordOf};
ghost use Rattle.disk_journal.specs.Journal.{IsAtRest, IsFaultOf};

use crate::durable::{cut_durably, write_durably};
use crate::header::{CLOSED, FRAME, HEADER, Heading, OPEN, header};
use crate::reading::read_bodies;
use base_types::{BlobList, OutOfMemory};
use edge_traits::{Disk, Failed};
use std::alloc::{AllocError, Global};
use std::marker::Model;

/// Why a journal could not be made or opened.
#[derive(Clone, Copy, Debug, PartialEq, Eq)]
pub enum JournalFault {
    Disk,
    /// The bytes from this offset on are no header, or no whole record behind an open gate.
    Damaged { at: u64 },
    OutOfMemory,
}

impl From<Failed> for JournalFault {
    ghost use Rattle.disk_journal.specs.declared.journal.JournalFault.TheVariants as fault;

    ghost from_gives = { λ _ e. e ≡ fault.Disk };

    fn from(_: Failed) -> Self {
        JournalFault::Disk
    }
}

impl From<AllocError> for JournalFault {
    ghost use Rattle.disk_journal.specs.declared.journal.JournalFault.TheVariants as fault;

    ghost from_gives = { λ _ e. e ≡ fault.OutOfMemory };

    fn from(_: AllocError) -> Self {
        JournalFault::OutOfMemory
    }
}

/// Why a record could not be appended.
#[derive(Clone, Copy, Debug, PartialEq, Eq)]
pub enum AppendFault {
    /// The disk failed. The record may be there or not, and the journal is broken from now on: open the file again.
    Disk,
    /// The disk failed in an earlier call.
    Broken,
}

/// A file of records that only grows, on a disk that it doesn't own.
///
/// The file has a header, and each record stands behind a gate byte. A record counts where its gate and all gates
/// before it are open (1). The gate behind the last record is closed on the disk before anything is written behind it,
/// and is opened by a write of its own once that is durable. So no checksum has to be trusted.
#[derive(Debug, Drop)]
pub struct Journal {
    file: u64,
    heading: Heading,
    end: u64,
    broken: bool,
    // Room for the next record without its gate, and for the gate that follows it.
    buffer: Vec<u8>,
}

impl Model for Journal {
    ghost use Rattle.disk_journal.specs.Journal.{JournalView};
    ghost use Rattle.disk_journal.specs.GateFile.{header_length, frame_length};
    ghost use Rattle.std.specs.Prelude.{length, ◌-◌, ◌<◌, ◌≤◌};

    ghost Value = { JournalView };

    ghost view = { λ j. record { file = j.file; heading = j.heading; length = j.end; room = length j.buffer.items - frame_length; broken = j.broken } };

    ghost invariant = { λ j. (header_length < j.end) × (frame_length ≤ length j.buffer.items) };
}

impl Journal {
    /// Makes the file anew, with one record, and makes it durable.
    ///
    /// # Errors
    ///
    /// `Disk` or `OutOfMemory`. The file may hold anything then.
    pub fn create<D: Disk>(
        alloc: Global,
        disk: &mut D,
        file: u64,
        heading: Heading,
        first: &[u8],
    ) -> Result<Journal, JournalFault>
        requires small { header_length + 1 + frame_length + length first.now ≤ longest_journal }
        ensures journal { IfOk result (λ j. j ≡ record { file = file; heading = heading; length = header_length + 1 + frame_length + length first.now; room = 0; broken = false }) }
        ensures created { (files after : Image) → (D.disk disk.old).told ≡ Some files → (D.disk disk.new).told ≡ Some after
            → OnOk result (after file ≡ gate_file heading (first.now ∷ []) 0) }
        ensures at_rest { (files after : Image) → (D.disk disk.old).told ≡ Some files → (D.disk disk.new).told ≡ Some after
            → IfOk result (λ j. IsAtRest j (D.disk disk.new).may_leave (first.now ∷ []) after) }
        ensures elsewhere { (files : Image) → (D.disk disk.old).told ≡ Some files → ChangesOnly files (D.disk disk.new).told file }
        ensures untold { (D.disk disk.old).told ≡ None → (D.disk disk.new).told ≡ None }
        ensures crash_elsewhere { Adds (D.disk disk.old) (D.disk disk.new) (λ other. other ≢ file) }
        ensures any_moment { Leaves (D.disk disk.old) (D.disk disk.new)
            (LeavesOthers (D.disk disk.old) file) }
        ensures failed { IsErrOf result JournalFault.Disk → Rose (D.disk disk.old).faults (D.disk disk.new).faults }
        ensures count { (D.disk disk.old).faults ≤ (D.disk disk.new).faults }

        // Memory is taken before the disk is touched.
        ensures no_memory { IsErrOf result JournalFault.OutOfMemory → disk.new ≡ disk.old }
        ensures not_damaged { (at : ℕ) → IsErrOf result (JournalFault.Damaged at) → ⊥ }
    {
        let bytes = new_file(alloc, heading, first)?;
        let buffer = vec![in alloc; 0; FRAME]?;
        disk.cut(file, 0)?;
        write_durably(disk, file, 0, &bytes)?;
        Ok(Journal {
            file,
            heading,
            end: bytes.len() as u64,
            broken: false,
            buffer,
        })
    }

    /// Opens the file and hands out the bodies of its records. What stands behind the first gate that isn't open is
    /// cut off. It never writes a gate, and a crash within it leaves the same records.
    ///
    /// # Errors
    ///
    /// `Damaged` where the header is another, no gate stands behind it, or an open gate has no whole record and gate
    /// behind it; nothing is cut then. `Disk`, `OutOfMemory`.
    pub fn reopen<D: Disk>(
        alloc: Global,
        disk: &mut D,
        file: u64,
        heading: Heading,
    ) -> Result<(Journal, BlobList), JournalFault>
        ensures journal { IfOk result (λ found. (found.0.file ≡ file) × (found.0.heading ≡ heading) × (found.0.room ≡ 0) × (found.0.broken ≡ false)) }
        ensures length { IfOk result (λ found. found.0.length ≡ length (gate_file heading found.1 0)) }
        ensures bodies { (files : Image) → (D.disk disk.old).told ≡ Some files → IfOk result (λ found. HasBodies heading found.1 (files file)) }
        ensures at_rest { (files after : Image) → (D.disk disk.old).told ≡ Some files → (D.disk disk.new).told ≡ Some after
            → IfOk result (λ found. IsAtRest found.0 (D.disk disk.new).may_leave found.1 after) }
        ensures front { (files after : Image) → (D.disk disk.old).told ≡ Some files → (D.disk disk.new).told ≡ Some after
            → IfOk result (λ found. after file ≡ take found.0.length (files file)) }
        ensures fault { (files : Image) → (D.disk disk.old).told ≡ Some files → IfErr result (IsFaultOf heading (files file)) }
        ensures nothing_cut { (at : ℕ) → IsErrOf result (JournalFault.Damaged at) → (D.disk disk.new).told ≡ (D.disk disk.old).told }
        ensures no_memory { IsErrOf result JournalFault.OutOfMemory → (D.disk disk.new).told ≡ (D.disk disk.old).told }
        ensures elsewhere { (files : Image) → (D.disk disk.old).told ≡ Some files → ChangesOnly files (D.disk disk.new).told file }
        ensures untold { (D.disk disk.old).told ≡ None → (D.disk disk.new).told ≡ None }
        ensures crash_elsewhere { Adds (D.disk disk.old) (D.disk disk.new) (λ other. other ≢ file) }

        // A crash at any moment leaves what it might have left before, or the same records.
        ensures any_moment { (files : Image) → (D.disk disk.old).told ≡ Some files
            → Leaves (D.disk disk.old) (D.disk disk.new)
            (λ image. ((D.disk disk.old).may_leave file (image file) ⊎ HaveSameBodies heading (files file) (image file))
            × LeavesOthers (D.disk disk.old) file image) }
        ensures failed { IsErrOf result JournalFault.Disk → Rose (D.disk disk.old).faults (D.disk disk.new).faults }
        ensures count { (D.disk disk.old).faults ≤ (D.disk disk.new).faults }
    {
        let buffer = vec![in alloc; 0; FRAME]?;
        disk.sync(file)?;
        let (bodies, gate) = read_bodies(alloc, disk, file, heading)?;
        cut_durably(disk, file, gate + 1)?;
        let journal = Journal {
            file,
            heading,
            end: gate + 1,
            broken: false,
            buffer,
        };
        Ok((journal, bodies))
    }

    /// The length of its file in bytes.
    pub fn len(&self) -> u64
        ensures { result ≡ self.now.length }
    {
        self.end
    }

    /// Takes the memory for appending a body of so many bytes, if it isn't there already.
    pub fn reserve(&mut self, bytes: u64) -> Result<(), OutOfMemory>
        ensures room { OnOk result (bytes ≤ self.new.room) }
        ensures keeps { self.old.room ≤ self.new.room }
        ensures same { self.new ≡ record self.old { room = self.new.room } }
        ensures err { OnErr result (self.new ≡ self.old) }
        ensures wanting { IsErr result → self.old.room < bytes }
    {
        grown(&mut self.buffer, bytes)
    }

    /// Appends a record. At `Ok` it is durable. It makes four calls of the disk: the record with a closed gate behind
    /// it, a sync, the open gate, and a sync.
    pub fn append<D: Disk>(&mut self, disk: &mut D, body: &[u8]) -> Result<(), AppendFault>
        requires room { length body.now ≤ self.old.room }
        requires small { self.old.length + length body.now + frame_length ≤ longest_journal }
        requires at_rest { self.old.broken ≡ false → (files : Image) → (D.disk disk.old).told ≡ Some files
            → (bodies : List (List ℕ)) × IsAtRest self.old (D.disk disk.old).may_leave bodies files }
        ensures ok { OnOk result (self.new ≡ record self.old { length = self.old.length + length body.now + frame_length }) }
        ensures at_rest { (files after : Image) (bodies : List (List ℕ)) → (D.disk disk.old).told ≡ Some files → (D.disk disk.new).told ≡ Some after
            → IsAtRest self.old (D.disk disk.old).may_leave bodies files
            → OnOk result (IsAtRest self.new (D.disk disk.new).may_leave (bodies ++ body.now ∷ []) after) }
        ensures appended { (files after : Image) (bodies : List (List ℕ)) → (D.disk disk.old).told ≡ Some files → (D.disk disk.new).told ≡ Some after
            → IsAtRest self.old (D.disk disk.old).may_leave bodies files
            → OnOk result (after self.old.file ≡ gate_file self.old.heading (bodies ++ body.now ∷ []) 0) }
        ensures disk { IsErrOf result AppendFault.Disk → self.new ≡ record self.old { broken = true } }
        ensures broken { (result ≡ Err AppendFault.Broken) ↔ (self.old.broken ≡ true) }
        ensures nothing { self.old.broken ≡ true → (self.new ≡ self.old) × (disk.new ≡ disk.old) }
        ensures elsewhere { (files : Image) → (D.disk disk.old).told ≡ Some files → ChangesOnly files (D.disk disk.new).told self.old.file }
        ensures untold { (D.disk disk.old).told ≡ None → (D.disk disk.new).told ≡ None }
        ensures crash_elsewhere { Adds (D.disk disk.old) (D.disk disk.new) (λ other. other ≢ self.old.file) }

        // A crash at any moment leaves the records from before the call, with the new one or without.
        ensures any_moment { (files : Image) (bodies : List (List ℕ)) → (D.disk disk.old).told ≡ Some files
            → IsAtRest self.old (D.disk disk.old).may_leave bodies files
            → Leaves (D.disk disk.old) (D.disk disk.new)
            (λ image. HasOldOrNew self.old.heading bodies body.now (image self.old.file) × LeavesOthers (D.disk disk.old) self.old.file image) }
        ensures failed { IsErrOf result AppendFault.Disk → Rose (D.disk disk.old).faults (D.disk disk.new).faults }
        ensures count { (D.disk disk.old).faults ≤ (D.disk disk.new).faults }
    {
        if self.broken {
            return Err(AppendFault::Broken);
        }
        fill(&mut self.buffer, body);
        let size = FRAME + body.len();
        match write_record(disk, self.file, self.end, &self.buffer[..size]) {
            Ok(()) => {
                self.end += size as u64;
                Ok(())
            }
            Err(_) => {
                self.broken = true;
                Err(AppendFault::Disk)
            }
        }
    }
}

// Makes the buffer long enough for a body of so many bytes. It is never made shorter.
fn grown(buffer: &mut Vec<u8>, bytes: u64) -> Result<(), OutOfMemory>
    requires { frame_length ≤ length buffer.old.items }
    ensures room { OnOk result (bytes + frame_length ≤ length buffer.new.items) }
    ensures keeps { length buffer.old.items ≤ length buffer.new.items }
    ensures err { OnErr result (length buffer.new.items ≡ length buffer.old.items) }
    ensures wanting { IsErr result → length buffer.old.items < bytes + frame_length }
{
    let Some(len) = bytes.checked_add(FRAME as u64) else {
        return Err(OutOfMemory);
    };
    if len > buffer.len() as u64 {
        buffer.resize(len as usize, 0)?;
    }
    Ok(())
}

// Lays the body behind its length, and a closed gate behind it.
fn fill(buffer: &mut [u8], body: &[u8])
    requires { length body.now + frame_length ≤ length buffer.old }
    ensures record { take (length body.now + frame_length) buffer.new ≡ shut_record body.now }
    ensures len { length buffer.new ≡ length buffer.old }
{
    put(buffer, 0, &(body.len() as u64).to_be_bytes());
    put(buffer, 8, body);
    put(buffer, 8 + body.len(), &[CLOSED]);
}

fn put(buffer: &mut [u8], at: usize, piece: &[u8])
    requires { at + length piece.now ≤ length buffer.old }
    ensures put { buffer.new ≡ overwritten buffer.old at piece.now }
    ensures len { length buffer.new ≡ length buffer.old }
{
    buffer[at..at + piece.len()].copy_from_slice(piece);
}

// Writes a record and a closed gate at the file's end, and opens the gate before it once they are durable.
fn write_record<D: Disk>(disk: &mut D, file: u64, end: u64, bytes: &[u8]) -> Result<(), Failed>
    requires gate { 1 ≤ end }
    requires small { end + length bytes.now ≤ longest_journal }
    requires within { (files : Image) → (D.disk disk.old).told ≡ Some files → end ≤ length (files file) }
    ensures written { (files after : Image) (heading : Heading) (bodies : List (List ℕ)) (body : List ℕ)
        → (D.disk disk.old).told ≡ Some files → (D.disk disk.new).told ≡ Some after
        → IsAtEnd heading bodies end ((D.disk disk.old).may_leave file) (files file) → IsRecordOf body bytes.now
        → OnOk result (after file ≡ gate_file heading (bodies ++ body ∷ []) 0) }
    ensures durable { (after : Image) → (D.disk disk.new).told ≡ Some after → OnOk result (Only (after file) ((D.disk disk.new).may_leave file)) }
    ensures elsewhere { (files : Image) → (D.disk disk.old).told ≡ Some files → ChangesOnly files (D.disk disk.new).told file }
    ensures untold { (D.disk disk.old).told ≡ None → (D.disk disk.new).told ≡ None }
    ensures crash_elsewhere { Adds (D.disk disk.old) (D.disk disk.new) (λ other. other ≢ file) }
    ensures any_moment { (files : Image) (heading : Heading) (bodies : List (List ℕ)) (body : List ℕ) → (D.disk disk.old).told ≡ Some files
        → IsAtEnd heading bodies end ((D.disk disk.old).may_leave file) (files file) → IsRecordOf body bytes.now
        → Leaves (D.disk disk.old) (D.disk disk.new)
        (λ image. HasOldOrNew heading bodies body (image file) × LeavesOthers (D.disk disk.old) file image) }
    ensures failed { IsErr result → Rose (D.disk disk.old).faults (D.disk disk.new).faults }
    ensures count { (D.disk disk.old).faults ≤ (D.disk disk.new).faults }
{
    write_durably(disk, file, end, bytes)?;
    write_durably(disk, file, end - 1, &[OPEN])
}

// The bytes of a file with one record.
fn new_file(alloc: Global, heading: Heading, first: &[u8]) -> Result<Vec<u8>, AllocError>
    requires { header_length + 1 + frame_length + length first.now ≤ longest_journal }
    ensures { IfOk result (λ bytes. bytes.items ≡ gate_file heading (first.now ∷ []) 0) }
{
    let mut bytes = Vec::with_capacity(alloc, HEADER + FRAME + 1 + first.len())?;
    bytes.extend_from_slice(&header(heading))?;
    bytes.push(OPEN)?;
    bytes.extend_from_slice(&(first.len() as u64).to_be_bytes())?;
    bytes.extend_from_slice(first)?;
    bytes.push(CLOSED)?;
    Ok(bytes)
}
