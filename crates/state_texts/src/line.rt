//! Lines of words and numbers, each behind a blank.
ghost use Rattle.std.specs.Prelude.{◌≡◌, ◌∷◌, ◌++◌, [], map, OnOk};
ghost use Rattle.state_texts.specs.Texts.{count_line, line};
ghost use Rattle.state_texts.specs.Parts.{part_text};
ghost use Rattle.std.specs.List.{flat_map};

use base_types::{Blob, OutOfMemory};
use itoa::Buffer;

/// What stands in a line behind its first word.
#[derive(Clone, Copy, Debug)]
pub enum Part<'p> {
    Word(&'p [u8]),
    /// In decimal digits.
    Number(u128),
}

fn put_part(text: &mut Blob, part: &Part<'_>) -> Result<(), OutOfMemory>
    ensures { OnOk result (text.new ≡ text.old ++ 32 ∷ part_text part.now) }
{
    text.append(b" ")?;
    match part {
        Part::Word(bytes) => text.append(bytes),
        Part::Number(n) => text.append(Buffer::new().format(*n).as_bytes()),
    }
}

fn put_parts(text: &mut Blob, parts: &[Part<'_>]) -> Result<(), OutOfMemory>
    ensures { OnOk result (text.new ≡ text.old ++ flat_map (λ part. 32 ∷ part_text part) parts.now) }
{
    'parts: for part in parts {
        put_part(text, part)?;
    }
    Ok(())
}

/// Puts a line behind the text.
#[tactic(auto, using(crate::proofs::Lines::line_put))]
pub fn put_line(text: &mut Blob, word: &str, parts: &[Part<'_>]) -> Result<(), OutOfMemory>
    ensures { OnOk result (text.new ≡ text.old ++ line word.now (map part_text parts.now)) }
{
    text.append(word.as_bytes())?;
    put_parts(text, parts)?;
    text.append(b"\n")?;
    Ok(())
}

/// Puts a line of a word and a number behind the text.
pub fn put_count(text: &mut Blob, word: &str, n: u128) -> Result<(), OutOfMemory>
    ensures { OnOk result (text.new ≡ text.old ++ count_line word.now n) }
{
    put_line(text, word, &[Part::Number(n)])
}
