ghost use Rattle.std.specs.Prelude.{◌≡◌};
ghost use Rattle.disk_journal.specs.GateFile.{header};

/// What the header of a gate file says: the number of the format of its records, and its generation.
#[derive(Clone, Copy, Debug, PartialEq, Eq)]
pub struct Heading {
    pub format: u32,
    pub generation: u64,
}

/// How many bytes a header takes.
pub const HEADER: usize = 16;

/// How many bytes a record takes besides its body: its length, and a gate.
pub const FRAME: usize = 9;

// The gate before a record that counts. Any other byte is a closed gate.
pub(crate) const OPEN: u8 = 1;

// The closed gate that is written.
pub(crate) const CLOSED: u8 = 0;

// The header that says this.
pub(crate) fn header(heading: Heading) -> [u8; HEADER]
    ensures { result ≡ header heading }
{
    let mut bytes = [0; HEADER];
    bytes[..4].copy_from_slice(b"IMQJ");
    bytes[4..8].copy_from_slice(&heading.format.to_be_bytes());
    bytes[8..].copy_from_slice(&heading.generation.to_be_bytes());
    bytes
}
