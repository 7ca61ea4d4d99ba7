ghost use Rattle.std.specs.Prelude.{◌≡◌, IfOk};

use base_types::{OutOfMemory, Text};
use std::alloc::Global;

/// The text of a word.
pub fn text_of(alloc: Global, word: &str) -> Result<Text, OutOfMemory>
    ensures { IfOk result (λ text. text ≡ word.now) }
{
    Ok(Text::from(String::from_str(alloc, word)?))
}
