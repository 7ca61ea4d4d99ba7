ghost use Rattle.std.specs.Prelude.{◌≡◌, ◌≢◌, ◌≤◌, ◌<◌, ◌^◌, List, ℕ, [], length, false, true, Some, None, IfOk, IsErrOf};
ghost use Rattle.base_types.specs.Lines.{first_line};
ghost use Rattle.edge_traits.specs.Count.{Rose};
ghost use Rattle.report_cut.specs.Pieces.{longest_line};
ghost use Rattle.feed_reader.specs.Beginning.{Begins, IsNew};

use crate::ReaderFault;
use crate::front::{has_byte, length_within, read_front};
use base_types::Blob;
use edge_traits::Source;
use report_cut::{CutRule, Cutter, LONGEST_LINE, first_line};
use std::alloc::Global;

/// What stands at an offset of a feed, for a reader that is to go on there.
#[derive(Drop)]
pub enum Beginning {
    /// A reader with this cutter goes on there.
    Cutter { cutter: Cutter },
    /// The feed ends there.
    End,
    /// The feed has so many bytes, fewer than the offset.
    Short { have: u64 },
    /// The feed's first line, which each piece begins with, passes 1,048,576 bytes with its newline.
    LongHeader,
}

/// Looks for what stands at an offset of a feed. Of a feed that isn't read from its start it looks at the byte before,
/// and where a header is repeated, at the byte there and at the first line.
pub fn begin_at<S: Source>(
    alloc: Global,
    source: &mut S,
    rule: CutRule,
    at: u64,
) -> Result<Beginning, ReaderFault>
    requires some { 0 < rule.chunk_size }
    requires chunk { rule.chunk_size ≤ longest_line }
    ensures begins { (feed : List ℕ) → (S.source source.old).told ≡ Some feed → IfOk result (Begins rule feed at) }
    ensures new { IfOk result (IsNew rule at) }
    ensures failed { IsErrOf result ReaderFault.Failed → Rose (S.source source.old).faults (S.source source.new).faults }
    ensures name { (S.source source.new).name ≡ (S.source source.old).name }
    ensures told { (S.source source.new).told ≡ (S.source source.old).told }
    ensures count { (S.source source.old).faults ≤ (S.source source.new).faults }
{
    if at == 0 {
        let cutter = Cutter::new(alloc, rule, None, 0)?;
        return Ok(Beginning::Cutter { cutter });
    }
    if !has_byte(source, at - 1)? {
        let have = length_within(source, at - 1)?;
        return Ok(Beginning::Short { have });
    }
    if rule.replicate {
        return begin_headed(alloc, source, rule, at);
    }
    let cutter = Cutter::new(alloc, rule, None, at)?;
    Ok(Beginning::Cutter { cutter })
}

// The same behind a header that is repeated.
fn begin_headed<S: Source>(
    alloc: Global,
    source: &mut S,
    rule: CutRule,
    at: u64,
) -> Result<Beginning, ReaderFault>
    requires some { 0 < rule.chunk_size }
    requires chunk { rule.chunk_size ≤ longest_line }
    requires headed { rule.replicate ≡ true }
    requires behind { at ≢ 0 }
    requires there { (feed : List ℕ) → (S.source source.old).told ≡ Some feed → at ≤ length feed }
    ensures begins { (feed : List ℕ) → (S.source source.old).told ≡ Some feed → IfOk result (Begins rule feed at) }
    ensures new { IfOk result (IsNew rule at) }
    ensures failed { IsErrOf result ReaderFault.Failed → Rose (S.source source.old).faults (S.source source.new).faults }
    ensures name { (S.source source.new).name ≡ (S.source source.old).name }
    ensures told { (S.source source.new).told ≡ (S.source source.old).told }
    ensures count { (S.source source.old).faults ≤ (S.source source.new).faults }
{
    if !has_byte(source, at)? {
        return Ok(Beginning::End);
    }
    let front = read_front(alloc, source, LONGEST_LINE + 1)?;
    let header = header_in(&front);
    if header.len() > LONGEST_LINE {
        return Ok(Beginning::LongHeader);
    }
    let header = Blob::new(alloc, header)?;
    let cutter = Cutter::new(alloc, rule, Some(header), at)?;
    Ok(Beginning::Cutter { cutter })
}

// The first of these lines, with its newline where it has one.
fn header_in(bytes: &[u8]) -> &[u8]
    ensures { result.now ≡ first_line bytes.now }
{
    match first_line(bytes) {
        Some((line, _)) => line,
        None => b"",
    }
}
