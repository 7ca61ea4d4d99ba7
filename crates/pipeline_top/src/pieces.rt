ghost use Rattle.std.specs.Prelude.{◌≡◌, ◌≢◌, ◌⊎◌, ◌+◌, ◌≤◌, ◌++◌, ℕ, List, [], Some, None, true, false, length, IfOk, IfSome, OnOk, OnErr, IsErrOf};
ghost use Rattle.base_types.specs.Lines.{lines_of};
ghost use Rattle.edge_traits.specs.Count.{Rose};
ghost use Rattle.edge_traits.specs.Output.{TookFront, Moved};
ghost use Rattle.edge_traits.specs.Shelf.{count_on, content_of, lacks};
ghost use Rattle.edge_traits.specs.Sink.{Took};
ghost use Rattle.report_cut.specs.Pieces.{longest_line};
ghost use Rattle.pipeline_top.specs.Convert.{conversion, conversion_from, end_of, end_from, IsLineEnd};
ghost use Rattle.step_code.specs.Content.{longest_feed};
ghost use Rattle.pipeline_top.specs.Line.{whole_lines, conversion_unless, end_unless};

use crate::Status;
use crate::buffer::Buffer;
use crate::halt::Halt;
use crate::line::{Place, convert_bot, put_converted};
use base_types::Text;
use edge_traits::{Shelf, Sink, Source};
use event_json::Cleaner;
use feed_reader::{Ahead, FeedReader};
use report_cut::{CutRule, Cutter, first_line};
use std::alloc::Global;

// Pieces of some 64 KiB, with no header.
const RULE: CutRule = CutRule {
    chunk_size: 65536,
    replicate: false,
};

/// Writes the conversion of the feed of this name as it comes, and answers how it ended. Where it stops, a front of it
/// is written. The source is given back in every case.
pub fn convert_feed<H: Shelf, S: Sink>(
    alloc: Global,
    shelf: &mut H,
    name: &Text,
    out: &mut S,
) -> Result<Status, Halt>
    ensures absent { IsErrOf result Halt.Absent → lacks (H.shelf shelf.old) name.now ≡ true }
    ensures lacking { lacks (H.shelf shelf.old) name.now ≡ true
        → (IsErrOf result Halt.Absent ⊎ IsErrOf result Halt.OutOfMemory) × Took (S.sink out.old) (S.sink out.new) [] }
    ensures failed { IsErrOf result Halt.Failed
        → Rose (count_on (H.shelf shelf.old) name.now) (count_on (H.shelf shelf.new) name.now) }
    ensures sink { IsErrOf result Halt.Sink → Rose (S.sink out.old).faults (S.sink out.new).faults }

    ensures ends { IfOk result IsLineEnd }
    ensures end { (content : List ℕ) → content_of (H.shelf shelf.old) name.now ≡ Some content → IfOk result (λ status. status ≡ end_of content) }
    ensures written { (content : List ℕ) → content_of (H.shelf shelf.old) name.now ≡ Some content
        → OnOk result (Took (S.sink out.old) (S.sink out.new) (conversion content)) }
    ensures front { (content : List ℕ) → content_of (H.shelf shelf.old) name.now ≡ Some content
        → OnErr result (TookFront (S.sink out.old) (S.sink out.new) (conversion content)) }

    ensures told { (H.shelf shelf.new).told ≡ (H.shelf shelf.old).told }
    ensures count { count_on (H.shelf shelf.old) name.now ≤ count_on (H.shelf shelf.new) name.now }
    ensures other_counts { (other : List ℕ) → other ≢ name.now
        → count_on (H.shelf shelf.new) other ≡ count_on (H.shelf shelf.old) other }
    ensures sink_count { (S.sink out.old).faults ≤ (S.sink out.new).faults }
{
    let cutter = Cutter::new(alloc, RULE, None, 0)?;
    let source = shelf.fetch(alloc, name)?;
    let mut reader = FeedReader::new(alloc, source, cutter);
    let end = convert_source(alloc, &mut reader, out);
    shelf.take_back(name, reader.into_source());
    end
}

// Writes the conversion of the feed that the reader has before it.
#[tactic(auto, using(edge_traits::proofs::Outputs::buffer_written, edge_traits::proofs::Outputs::buffer_stopped))]
fn convert_source<R: Source, S: Sink>(
    alloc: Global,
    reader: &mut FeedReader<R>,
    out: &mut S,
) -> Result<Status, Halt>
    requires start { reader.old.at ≡ 0 }
    requires rule { reader.old.rule ≡ whole_lines }
    ensures present { IsErrOf result Halt.Absent → ⊥ }
    ensures failed { IsErrOf result Halt.Failed → Rose reader.old.source.faults reader.new.source.faults }
    ensures sink { IsErrOf result Halt.Sink → Rose (S.sink out.old).faults (S.sink out.new).faults }
    ensures ends { IfOk result IsLineEnd }
    ensures end { (content : List ℕ) → reader.old.source.told ≡ Some content → IfOk result (λ status. status ≡ end_of content) }
    ensures written { (content : List ℕ) → reader.old.source.told ≡ Some content
        → OnOk result (Took (S.sink out.old) (S.sink out.new) (conversion content)) }
    ensures front { (content : List ℕ) → reader.old.source.told ≡ Some content
        → OnErr result (TookFront (S.sink out.old) (S.sink out.new) (conversion content)) }
    ensures name { reader.new.source.name ≡ reader.old.source.name }
    ensures count { reader.old.source.faults ≤ reader.new.source.faults }
    ensures sink_count { (S.sink out.old).faults ≤ (S.sink out.new).faults }
{
    let mut buffer = Buffer::new(alloc);
    let status = convert_pieces(alloc, reader, &mut buffer, out)?;
    buffer.flush(out)?;
    Ok(status)
}

// Converts piece after piece, up to the first line that is refused. What isn't written yet is in the buffer.
fn convert_pieces<R: Source, S: Sink>(
    alloc: Global,
    reader: &mut FeedReader<R>,
    buffer: &mut Buffer,
    out: &mut S,
) -> Result<Status, Halt>
    requires start { reader.old.at ≡ 0 }
    requires rule { reader.old.rule ≡ whole_lines }
    ensures present { IsErrOf result Halt.Absent → ⊥ }
    ensures failed { IsErrOf result Halt.Failed → Rose reader.old.source.faults reader.new.source.faults }
    ensures sink { IsErrOf result Halt.Sink → Rose (S.sink out.old).faults (S.sink out.new).faults }
    ensures ends { IfOk result IsLineEnd }
    ensures end { (content : List ℕ) → reader.old.source.told ≡ Some content → IfOk result (λ status. status ≡ end_of content) }
    ensures written { (content : List ℕ) → reader.old.source.told ≡ Some content
        → OnOk result (Moved (S.sink out.old) (S.sink out.new) (buffer.old ++ conversion content) buffer.new) }
    ensures front { (content : List ℕ) → reader.old.source.told ≡ Some content
        → OnErr result (TookFront (S.sink out.old) (S.sink out.new) (buffer.old ++ conversion content)) }
    ensures name { reader.new.source.name ≡ reader.old.source.name }
    ensures count { reader.old.source.faults ≤ reader.new.source.faults }
    ensures sink_count { (S.sink out.old).faults ≤ (S.sink out.new).faults }
{
    let mut cleaner = Cleaner::new(alloc);
    let mut place = Place { number: 1, at: 0 };
    'pieces: loop {
        match reader.next_piece()? {
            Ahead::Piece { cut } => {
                let piece = cut.piece.bytes();
                let (end, behind) = convert_piece(alloc, &mut cleaner, place, piece, buffer, out)?;
                if let Some(status) = end {
                    return Ok(status);
                }
                place = behind;
            }
            Ahead::End => return Ok(Status::Done),
            Ahead::LongLine { at } => {
                let bot = convert_bot();
                return Ok(Status::LongLine { bot, at });
            }
        }
    }
}

// Converts the lines of a piece that stands at a place. Answers why one of them is refused, and where the next line
// stands.
fn convert_piece<S: Sink>(
    alloc: Global,
    cleaner: &mut Cleaner,
    first: Place,
    piece: &[u8],
    buffer: &mut Buffer,
    out: &mut S,
) -> Result<(Option<Status>, Place), Halt>
    requires number { first.number ≤ first.at + 1 }
    requires near { first.at ≤ longest_feed }
    requires short { length piece.now ≤ longest_line }
    ensures number { IfOk result (λ r. r.1.number ≤ r.1.at + 1) }
    ensures near { IfOk result (λ r. r.1.at ≤ longest_feed) }
    ensures at { IfOk result (λ r. r.0 ≡ None → r.1.at ≡ first.at + length piece.now) }
    ensures ends { IfOk result (λ r. IfSome r.0 IsLineEnd) }
    // Whatever lines come later:
    ensures end { (later : List (List ℕ)) → IfOk result (λ r. end_from first (lines_of piece.now ++ later) ≡ end_unless r.0 r.1 later) }
    ensures written { (later : List (List ℕ)) → IfOk result (λ r. Moved (S.sink out.old) (S.sink out.new)
        (buffer.old ++ conversion_from first (lines_of piece.now ++ later)) (buffer.new ++ conversion_unless r.0 r.1 later)) }
    ensures front { (later : List (List ℕ)) → OnErr result (TookFront (S.sink out.old) (S.sink out.new)
        (buffer.old ++ conversion_from first (lines_of piece.now ++ later))) }
    ensures memory { IsErrOf result Halt.Absent ⊎ IsErrOf result Halt.Failed → ⊥ }
    ensures sink { IsErrOf result Halt.Sink → Rose (S.sink out.old).faults (S.sink out.new).faults }
    ensures sink_count { (S.sink out.old).faults ≤ (S.sink out.new).faults }
{
    let mut rest = piece;
    let mut place = first;
    'lines: while let Some((line, more)) = first_line(rest) {
        if let Some(status) = put_converted(alloc, cleaner, place, line, buffer)? {
            return Ok((Some(status), place));
        }
        buffer.flush_full(out)?;
        place = place.behind(line);
        rest = more;
    }
    Ok((None, place))
}
