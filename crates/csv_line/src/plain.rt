ghost use Rattle.std.specs.Prelude.{◌≡◌};
ghost use Rattle.std.specs.List.{list_all};
ghost use Rattle.csv_line.specs.Plain.{is_plain, is_plain_byte};

/// Whether the line is its fields with delimiters between them: it has a byte, no quote and no end of a line, and doesn't
/// begin as a byte order mark does. Then its record is what stands between the delimiters.
pub fn is_plain(line: &[u8]) -> bool
    ensures { result ≡ is_plain line.now }
{
    match line.first() {
        None => false,
        Some(first) => *first != 0xef && has_plain_bytes(line),
    }
}

fn has_plain_bytes(line: &[u8]) -> bool
    ensures { result ≡ list_all is_plain_byte line.now }
{
    line.iter().all(|b| is_plain_byte(*b))
}

fn is_plain_byte(b: u8) -> bool
    ensures { result ≡ is_plain_byte b }
{
    b != b'"' && b != b'\n' && b != b'\r'
}
