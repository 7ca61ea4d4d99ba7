//! Dumps as lines of JSON.
ghost use Rattle.std.specs.Prelude.{◌≡◌, ◌≤◌, OnOk, OnErr, IsErr};
ghost use Rattle.std.specs.List.{flat_map};
ghost use Rattle.edge_traits.specs.Count.{Rose};
ghost use Rattle.edge_traits.specs.Output.{TookFront};
ghost use Rattle.edge_traits.specs.Sink.{Took};
ghost use Rattle.dump_store.specs.Export.{dump_line, export_text};
ghost use Rattle.dump_store.specs.Pieces.{piece_text};

use crate::escape::write_content;
use edge_traits::{Failed, Sink, write_all};
use itoa::Buffer;
use stored_types::Dump;

/// Why dumps weren't exported whole.
#[derive(Clone, Copy, Debug, PartialEq, Eq)]
pub enum ExportFault {
    /// The sink failed.
    Sink,
}

impl From<Failed> for ExportFault {
    fn from(_: Failed) -> Self {
        ExportFault::Sink
    }
}

// What a line consists of.
#[derive(Debug, Drop)]
enum Piece<'d> {
    // Bytes as they are.
    Plain(&'d [u8]),
    // In decimal digits.
    Number(u64),
    // As the inside of a JSON string.
    Escaped(&'d [u8]),
}

fn write_piece<S: Sink>(out: &mut S, piece: &Piece<'_>) -> Result<(), Failed>
    ensures ok { OnOk result (Took (S.sink out.old) (S.sink out.new) (piece_text piece.now)) }
    ensures err { OnErr result (TookFront (S.sink out.old) (S.sink out.new) (piece_text piece.now)) }
    ensures failed { IsErr result → Rose (S.sink out.old).faults (S.sink out.new).faults }
    ensures count { (S.sink out.old).faults ≤ (S.sink out.new).faults }
{
    match piece {
        Piece::Plain(bytes) => write_all(out, bytes),
        Piece::Number(n) => write_all(out, Buffer::new().format(*n).as_bytes()),
        Piece::Escaped(text) => write_content(out, text),
    }
}

// The pieces of a dump's line, by rising keys.
fn pieces(dump: &Dump) -> [Piece<'_>; 13]
    ensures { flat_map piece_text result ≡ dump_line dump.now }
{
    [
        Piece::Plain(b"{\"bot\":\""),
        Piece::Escaped(dump.bot.bytes()),
        Piece::Plain(b"\",\"code\":"),
        Piece::Number(dump.note.code as u64),
        Piece::Plain(b",\"message\":"),
        Piece::Plain(dump.message.body.bytes()),
        Piece::Plain(b",\"moment\":"),
        Piece::Number(dump.moment.0),
        Piece::Plain(b",\"no\":"),
        Piece::Number(dump.no),
        Piece::Plain(b",\"note\":\""),
        Piece::Escaped(dump.note.text.bytes()),
        Piece::Plain(b"\"}\n"),
    ]
}

fn write_pieces<S: Sink>(out: &mut S, pieces: &[Piece<'_>]) -> Result<(), Failed>
    ensures ok { OnOk result (Took (S.sink out.old) (S.sink out.new) (flat_map piece_text pieces.now)) }
    ensures err { OnErr result (TookFront (S.sink out.old) (S.sink out.new) (flat_map piece_text pieces.now)) }
    ensures failed { IsErr result → Rose (S.sink out.old).faults (S.sink out.new).faults }
    ensures count { (S.sink out.old).faults ≤ (S.sink out.new).faults }
{
    'pieces: for piece in pieces {
        write_piece(out, piece)?;
    }
    Ok(())
}

fn write_dump<S: Sink>(out: &mut S, dump: &Dump) -> Result<(), Failed>
    ensures ok { OnOk result (Took (S.sink out.old) (S.sink out.new) (dump_line dump.now)) }
    ensures err { OnErr result (TookFront (S.sink out.old) (S.sink out.new) (dump_line dump.now)) }
    ensures failed { IsErr result → Rose (S.sink out.old).faults (S.sink out.new).faults }
    ensures count { (S.sink out.old).faults ≤ (S.sink out.new).faults }
{
    write_pieces(out, &pieces(dump))
}

/// Writes a line for each dump. After a failure the sink has got a front of them.
pub fn write_dumps<S: Sink>(out: &mut S, dumps: &[Dump]) -> Result<(), Failed>
    ensures ok { OnOk result (Took (S.sink out.old) (S.sink out.new) (export_text dumps.now)) }
    ensures err { OnErr result (TookFront (S.sink out.old) (S.sink out.new) (export_text dumps.now)) }
    ensures failed { IsErr result → Rose (S.sink out.old).faults (S.sink out.new).faults }
    ensures count { (S.sink out.old).faults ≤ (S.sink out.new).faults }
{
    'dumps: for dump in dumps {
        write_dump(out, dump)?;
    }
    Ok(())
}
