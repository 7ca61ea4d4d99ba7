ghost use Rattle.std.specs.Prelude.{◌≡◌, is_some, IfOk};
ghost use Rattle.sieve_tree.specs.Pattern.{pattern_of};

use base_types::OutOfMemory;
use regex_syntax::{Config, ErrorKind};
use std::alloc::Global;

/// Whether a text reads as a pattern.
pub fn is_pattern(alloc: Global, text: &str) -> Result<bool, OutOfMemory>
    ensures { IfOk result (λ is. is ≡ is_some (pattern_of text.now)) }
{
    let Err(error) = regex_syntax::parse(alloc, text, &Config::default()) else {
        return Ok(true);
    };
    match error.kind {
        ErrorKind::OutOfMemory => Err(OutOfMemory),
        _ => Ok(false),
    }
}
