//! The lines of a drill's feed, one after the other.
ghost use Rattle.std.specs.Prelude.{◌≡◌, ◌+◌, ◌<◌, ◌^◌, ◌++◌, decimal, OnOk};
ghost use Rattle.feed_maker.specs.DrillFeed.{address, class_word, line, next};
ghost use Rattle.feed_maker.specs.Lines.{coming};

use itoa::Buffer;
use std::alloc::AllocError;

const MULTIPLIER: u128 = 6364136223846793005;

const INCREMENT: u128 = 1442695040888963407;

/// The lines that are still to be made: how many, the number of the last one that was made, from 1, and the number of
/// the generator that it was made from.
#[derive(Debug, Drop)]
pub struct Lines {
    pub left: u32,
    pub no: u64,
    pub number: u64,
}

fn next(number: u64) -> u64
    ensures { result ≡ next number }
{
    ((number as u128 * MULTIPLIER + INCREMENT) % (1 << 64)) as u64
}

fn put_number(text: &mut Vec<u8>, n: u64) -> Result<(), AllocError>
    ensures { OnOk result (text.new.items ≡ text.old.items ++ decimal n) }
{
    text.extend_from_slice(Buffer::new().format(n).as_bytes())
}

fn put_address(text: &mut Vec<u8>, no: u64, y: u64) -> Result<(), AllocError>
    ensures { OnOk result (text.new.items ≡ text.old.items ++ address no y) }
{
    if no % 100 == 0 {
        return text.extend_from_slice(b"bad");
    }
    text.extend_from_slice(b"10.")?;
    put_number(text, y % 4)?;
    text.extend_from_slice(b".")?;
    put_number(text, y / 4 % 256)?;
    text.extend_from_slice(b".")?;
    put_number(text, y / 1024 % 256)
}

fn class_word(class: u64) -> &'static str
    ensures { result.now ≡ class_word class }
{
    match class {
        0 => "scanner",
        1 => "brute-force",
        2 => "phishing",
        _ => "ddos",
    }
}

fn put_line(text: &mut Vec<u8>, no: u64, y: u64) -> Result<(), AllocError>
    ensures { OnOk result (text.new.items ≡ text.old.items ++ line no y) }
{
    put_address(text, no, y)?;
    text.extend_from_slice(b",")?;
    put_number(text, y % 65536)?;
    text.extend_from_slice(b",")?;
    text.extend_from_slice(class_word(y % 4).as_bytes())?;
    text.extend_from_slice(b",")?;
    put_number(text, no)?;
    text.extend_from_slice(b"\n")
}

impl Lines {
    /// Puts the next line behind the text.
    #[tactic(auto, using(crate::proofs::Behind::line_put))]
    pub fn put_next(&mut self, text: &mut Vec<u8>) -> Result<(), AllocError>
        requires some { 0 < self.old.left }
        requires fits { self.old.no + self.old.left < 2 ^ 33 }
        ensures line { OnOk result (text.new.items ++ coming self.new ≡ text.old.items ++ coming self.old) }
        ensures left { self.new.left + 1 ≡ self.old.left }
        ensures fits { self.new.no + self.new.left < 2 ^ 33 }
    {
        self.left -= 1;
        self.no += 1;
        self.number = next(self.number);
        put_line(text, self.no, self.number >> 33)?;
        Ok(())
    }
}
