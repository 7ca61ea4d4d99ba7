ghost use Rattle.std.specs.Prelude.{◌≡◌, ◌≢◌, ◌<◌, ◌≤◌, ◌+◌, ◌^◌, ◌++◌, ℕ, List, length, take, drop, Some, IfOk, IfErr, OnOk, IsErrOf, MatchOption, IfSome};
ghost use Rattle.std.specs.Int.{to_be_bytes, w64};
ghost use Rattle.edge_traits.specs.Count.{Rose};
ghost use Rattle.edge_traits.specs.Disk.{Image};
ghost use Rattle.disk_journal.specs.GateFile.{header, header_length, open_records, gate_file, HasRecords};
ghost use Rattle.disk_journal.specs.Journal.{IsFaultOf, IsHeadFault};
ghost use Rattle.disk_journal.specs.Reads.{OnlyReads, BeginsWithBody, IsReadOf, IsReadTo, IsCutShort, IsClosed, IsOpen};

use crate::JournalFault;
use crate::header::{FRAME, HEADER, Heading, OPEN, header};
use base_types::{Blob, BlobList, read_u64};
use edge_traits::Disk;
use std::alloc::Global;

/// The bodies of the file's records, and the offset in bytes of the first gate that isn't open. Nothing is written.
///
/// # Errors
///
/// `Damaged` where the header is another, no gate stands behind it, or an open gate has no whole record and gate behind it.
/// `Disk`, `OutOfMemory`.
pub fn read_bodies<D: Disk>(
    alloc: Global,
    disk: &mut D,
    file: u64,
    heading: Heading,
) -> Result<(BlobList, u64), JournalFault>
    ensures place { IfOk result (λ found. found.1 + 1 < 2 ^ 64) }
    ensures length { IfOk result (λ found. found.1 + 1 ≡ length (gate_file heading found.0 0)) }
    ensures bodies { (files : Image) → (D.disk disk.old).told ≡ Some files
        → IfOk result (λ found. IsReadTo heading found.0 found.1 (drop found.1 (files file)) (files file) × IsClosed (drop found.1 (files file))) }
    ensures fault { (files : Image) → (D.disk disk.old).told ≡ Some files → IfErr result (IsFaultOf heading (files file)) }
    ensures reads { OnlyReads (D.disk disk.old) (D.disk disk.new) }
    ensures failed { IsErrOf result JournalFault.Disk → Rose (D.disk disk.old).faults (D.disk disk.new).faults }
{
    match read_file(alloc, disk, file, heading) {
        Ok(found) => {
            if found.is_cut {
                Err(JournalFault::Damaged { at: found.at })
            } else {
                Ok((found.bodies, found.at))
            }
        }
        Err(fault) => Err(fault),
    }
}

/// The bodies of the file's whole records; and the offset of the gate behind them where that is open, and no whole record and gate
/// stand behind it. A journal with such a gate doesn't open.
///
/// # Errors
///
/// `Damaged` at the front where the file has another header, and behind the header where it ends with that. `Disk`, `OutOfMemory`.
pub fn read_records<D: Disk>(
    alloc: Global,
    disk: &mut D,
    file: u64,
    heading: Heading,
) -> Result<(BlobList, Option<u64>), JournalFault>
    ensures short { IfOk result (λ found. header_length + length (open_records found.0) + 1 < 2 ^ 64) }
    ensures records { (files : Image) → (D.disk disk.old).told ≡ Some files → IfOk result (λ found. HasRecords heading found.0 found.1 (files file)) }
    ensures fault { (files : Image) → (D.disk disk.old).told ≡ Some files → IfErr result (IsHeadFault heading (files file)) }
    ensures reads { OnlyReads (D.disk disk.old) (D.disk disk.new) }
    ensures failed { IsErrOf result JournalFault.Disk → Rose (D.disk disk.old).faults (D.disk disk.new).faults }
{
    match read_file(alloc, disk, file, heading) {
        Ok(found) => {
            if found.is_cut {
                Ok((found.bodies, Some(found.at)))
            } else {
                Ok((found.bodies, None))
            }
        }
        Err(fault) => Err(fault),
    }
}

// The bodies of whole records, and the gate behind them: its offset, and whether it is open.
#[derive(Drop)]
struct Records {
    bodies: BlobList,
    at: u64,
    is_cut: bool,
}

fn read_file<D: Disk>(
    alloc: Global,
    disk: &mut D,
    file: u64,
    heading: Heading,
) -> Result<Records, JournalFault>
    ensures place { IfOk result (λ found. found.at + 1 < 2 ^ 64) }
    ensures length { IfOk result (λ found. found.at ≡ header_length + length (open_records found.bodies)) }
    ensures records { (files : Image) → (D.disk disk.old).told ≡ Some files → IfOk result (λ found. IsReadOf heading found.bodies found.at found.is_cut (files file)) }
    ensures fault { (files : Image) → (D.disk disk.old).told ≡ Some files → IfErr result (IsHeadFault heading (files file)) }
    ensures reads { OnlyReads (D.disk disk.old) (D.disk disk.new) }
    ensures failed { IsErrOf result JournalFault.Disk → Rose (D.disk disk.old).faults (D.disk disk.new).faults }
{
    let end = disk.len(file)?;
    check_header(disk, file, heading)?;
    if end <= HEADER as u64 {
        return Err(JournalFault::Damaged { at: HEADER as u64 });
    }
    read_behind(alloc, disk, file, end)
}

// The records behind the header, up to the end of the file.
fn read_behind<D: Disk>(
    alloc: Global,
    disk: &mut D,
    file: u64,
    end: u64,
) -> Result<Records, JournalFault>
    requires { header_length < end }
    ensures place { IfOk result (λ found. found.at + 1 < 2 ^ 64) }
    ensures length { IfOk result (λ found. found.at ≡ header_length + length (open_records found.bodies)) }
    ensures records { (files : Image) (heading : Heading) → (D.disk disk.old).told ≡ Some files → end ≡ length (files file) → take header_length (files file) ≡ header heading
        → IfOk result (λ found. IsReadOf heading found.bodies found.at found.is_cut (files file)) }
    ensures whole { (place : ℕ) → IsErrOf result (JournalFault.Damaged place) → ⊥ }
    ensures reads { OnlyReads (D.disk disk.old) (D.disk disk.new) }
    ensures failed { IsErrOf result JournalFault.Disk → Rose (D.disk disk.old).faults (D.disk disk.new).faults }
{
    let mut bodies = BlobList::new(alloc);
    let mut at = HEADER as u64;
    'records: loop {
        let body = match next_record(alloc, disk, file, end, at) {
            Ok(Some(body)) => body,
            Ok(None) => {
                return Ok(Records {
                    bodies,
                    at,
                    is_cut: false,
                });
            }
            Err(JournalFault::Damaged { .. }) => {
                return Ok(Records {
                    bodies,
                    at,
                    is_cut: true,
                });
            }
            Err(fault) => return Err(fault),
        };
        at += FRAME as u64 + body.bytes().len() as u64;
        if bodies.push(body).is_err() {
            return Err(JournalFault::OutOfMemory);
        }
    }
}

/// The body of the record behind the gate at this offset in bytes, where that gate is open: none where the records end there.
/// The file has `end` bytes.
///
/// # Errors
///
/// `Damaged` at this offset where an open gate has no whole record and gate behind it. `Disk`, `OutOfMemory`.
pub fn next_record<D: Disk>(
    alloc: Global,
    disk: &mut D,
    file: u64,
    end: u64,
    at: u64,
) -> Result<Option<Blob>, JournalFault>
    requires { at < end }
    ensures fits { IfOk result (λ found. IfSome found (λ body. at + 9 + length body < end)) }
    ensures record { (files : Image) → (D.disk disk.old).told ≡ Some files → end ≡ length (files file)
        → IfOk result (λ found. MatchOption found (IsClosed (drop at (files file))) (BeginsWithBody (drop at (files file)))) }
    ensures damaged { (files : Image) (place : ℕ) → (D.disk disk.old).told ≡ Some files → end ≡ length (files file)
        → IsErrOf result (JournalFault.Damaged place) → (place ≡ at) × IsCutShort (drop at (files file)) }
    ensures reads { OnlyReads (D.disk disk.old) (D.disk disk.new) }
    ensures failed { IsErrOf result JournalFault.Disk → Rose (D.disk disk.old).faults (D.disk disk.new).faults }
{
    match read_gate(disk, file, end, at)? {
        Some(size) => Ok(Some(read_body(alloc, disk, file, at, size)?)),
        None => Ok(None),
    }
}

fn check_header<D: Disk>(disk: &mut D, file: u64, heading: Heading) -> Result<(), JournalFault>
    ensures header { (files : Image) → (D.disk disk.old).told ≡ Some files → OnOk result (take header_length (files file) ≡ header heading) }
    ensures fault { (files : Image) → (D.disk disk.old).told ≡ Some files → IfErr result (IsHeadFault heading (files file)) }
    ensures reads { OnlyReads (D.disk disk.old) (D.disk disk.new) }
    ensures failed { IsErrOf result JournalFault.Disk → Rose (D.disk disk.old).faults (D.disk disk.new).faults }
{
    let mut bytes = [0; HEADER];
    let count = disk.read_at(file, 0, &mut bytes)?;
    if count < HEADER || bytes != header(heading) {
        return Err(JournalFault::Damaged { at: 0 });
    }
    Ok(())
}

// The length of the body behind the gate at this offset, if that is open.
fn read_gate<D: Disk>(
    disk: &mut D,
    file: u64,
    end: u64,
    at: u64,
) -> Result<Option<u64>, JournalFault>
    requires { at < end }
    ensures fits { IfOk result (λ size. IfSome size (λ n. at + 9 + n < end)) }
    ensures gate { (files : Image) → (D.disk disk.old).told ≡ Some files → end ≡ length (files file)
        → IfOk result (λ size. MatchOption size (IsClosed (drop at (files file))) (IsOpen (drop at (files file)))) }
    ensures damaged { (files : Image) (place : ℕ) → (D.disk disk.old).told ≡ Some files → end ≡ length (files file)
        → IsErrOf result (JournalFault.Damaged place) → (place ≡ at) × IsCutShort (drop at (files file)) }
    ensures reads { OnlyReads (D.disk disk.old) (D.disk disk.new) }
    ensures failed { IsErrOf result JournalFault.Disk → Rose (D.disk disk.old).faults (D.disk disk.new).faults }
{
    let mut frame = [0; FRAME];
    let count = disk.read_at(file, at, &mut frame)?;
    // A disk that tells nothing may read short: what wasn't read is no closed gate.
    if count == 0 {
        return Err(JournalFault::Damaged { at });
    }
    if frame[0] != OPEN {
        return Ok(None);
    }
    match size_within(&frame[..count], end - at) {
        Some(size) => Ok(Some(size)),
        None => Err(JournalFault::Damaged { at }),
    }
}

// The length of the body behind a gate and this length, if the body and another gate end within so many bytes.
fn size_within(frame: &[u8], bytes: u64) -> Option<u64>
    ensures { MatchOption result ((size : ℕ) → size < 2 ^ 64 → take 8 (drop 1 frame.now) ≡ to_be_bytes w64 size → size + 9 < bytes → ⊥)
        (λ size. (take 8 (drop 1 frame.now) ≡ to_be_bytes w64 size) × (9 ≤ length frame.now) × (size + 9 < bytes)) }
{
    let size = read_u64(frame, 1)?;
    let left = bytes.checked_sub(FRAME as u64)?;
    if size < left { Some(size) } else { None }
}

// The body of this length behind the gate at this offset.
fn read_body<D: Disk>(
    alloc: Global,
    disk: &mut D,
    file: u64,
    at: u64,
    size: u64,
) -> Result<Blob, JournalFault>
    requires { at + 9 + size < 2 ^ 64 }
    ensures body { (files : Image) → (D.disk disk.old).told ≡ Some files → at + 9 + size ≤ length (files file)
        → IfOk result (λ body. body ≡ take size (drop (at + 9) (files file))) }
    ensures size { IfOk result (λ body. length body ≡ size) }
    ensures whole { (files : Image) (place : ℕ) → (D.disk disk.old).told ≡ Some files → at + 9 + size ≤ length (files file)
        → IsErrOf result (JournalFault.Damaged place) → ⊥ }
    ensures reads { OnlyReads (D.disk disk.old) (D.disk disk.new) }
    ensures failed { IsErrOf result JournalFault.Disk → Rose (D.disk disk.old).faults (D.disk disk.new).faults }
{
    let mut bytes = vec![in alloc; 0; size as usize]?;
    let count = disk.read_at(file, at + FRAME as u64, &mut bytes)?;
    if count < bytes.len() {
        return Err(JournalFault::Damaged { at });
    }
    Ok(Blob::from(bytes))
}
