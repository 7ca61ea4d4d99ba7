//! What the files of a store begin with.
ghost use Rattle.std.specs.Prelude.{◌≡◌};
ghost use Rattle.store_image.specs.Files.{heading_of, root_heading};

use disk_journal::Heading;

/// The number of the file that names the generations; the last of them is in force.
pub const ROOT: u64 = 0;

/// The format of the root, and of the generations that can be read.
pub const FIRST_FORMAT: u32 = 1;

/// The format that is written.
pub const WRITTEN_FORMAT: u32 = FIRST_FORMAT;

/// What a file of steps of this format begins with, in this generation.
pub fn heading_of(format: u32, generation: u64) -> Heading
    ensures { result ≡ heading_of format generation }
{
    Heading { format, generation }
}

/// What the root begins with.
pub fn root_heading() -> Heading
    ensures { result ≡ root_heading }
{
    heading_of(FIRST_FORMAT, 0)
}
