ghost use Rattle.std.specs.Prelude.{◌≡◌, IfOk, option_map};
ghost use Rattle.csv.specs.Records.{fields_of};
ghost use Rattle.csv_line.specs.Line.{one_record};

use base_types::OutOfMemory;
use csv::{ByteRecord, ReaderBuilder};
use std::alloc::Global;

/// The fields of the one record that a line is; `None` where it is none or several.
pub fn record_of(
    alloc: Global,
    delimiter: u8,
    line: &[u8],
) -> Result<Option<ByteRecord>, OutOfMemory>
    ensures { IfOk result (λ row. option_map fields_of row ≡ one_record delimiter line.now) }
{
    let mut reader = ReaderBuilder::new()
        .delimiter(delimiter)
        .has_headers(false)
        .flexible(true)
        .from_reader(alloc, line);
    let mut row = ByteRecord::new(alloc);
    let Ok(found) = reader.read_byte_record(&mut row) else {
        return Err(OutOfMemory);
    };
    if !found {
        return Ok(None);
    }
    let mut next = ByteRecord::new(alloc);
    let Ok(more) = reader.read_byte_record(&mut next) else {
        return Err(OutOfMemory);
    };
    if more { Ok(None) } else { Ok(Some(row)) }
}
