//! The name of a file, as it stands in a bundle's code.
ghost use Rattle.std.specs.Prelude.{◌≡◌, ◌++◌, List, ℕ, length, min, OnOk, IfOk};
ghost use Rattle.base_types.specs.Number.{last_u64};
ghost use Rattle.stored_types.specs.Code.{name, framed_at, front_at};
ghost use Rattle.stored_types.specs.Coded.{Begins, Gives, Reader};
ghost use Rattle.std.specs.Int.{w16};
ghost use Rattle.config_bundle.specs.Bundle.{IsFileName, file_name_at};

use base_types::{Blob, OutOfMemory, Text, TextFault, put_u16};
use std::alloc::Global;
use std::marker::Model;
use stored_types::{CodeFault, Coded};

/// A text whose code has its length in two bytes.
#[derive(Debug, Drop)]
pub struct FileName {
    text: Text,
}

impl Model for FileName {
    ghost use Rattle.std.specs.Prelude.{List, ℕ};

    ghost Value = { List ℕ };

    ghost view = { λ n. n.text };
}

impl FileName {
    pub fn into_text(self) -> Text
        ensures { result ≡ self }
    {
        self.text
    }
}

/// Appends a text behind its length in two bytes. Where the length can't be written, there is no code, as where memory
/// runs out.
#[tactic(auto, using(stored_types::proofs::Begins::begins))]
pub fn put_name(to: &mut Blob, text: &Text) -> Result<(), OutOfMemory>
    ensures code { OnOk result (to.new ≡ to.old ++ name text.now) }
    ensures writable { OnOk result (IsFileName text.now) }
    ensures kept { Begins to.old to.new }
{
    let bytes = text.as_str().as_bytes();
    let Ok(len) = u16::try_from(bytes.len()) else {
        return Err(OutOfMemory);
    };
    put_u16(to, len)?;
    to.append(bytes)
}

#[tactic(auto, unfolding(stored_types::specs::Code::front_at))]
fn front_of(len: usize, bytes: &[u8]) -> Result<(&[u8], &[u8]), CodeFault>
    ensures { Gives (λ x. (x.0.now, x.1.now)) result (front_at len bytes.now) }
{
    if bytes.len() < len {
        return Err(CodeFault::Bad);
    }
    Ok(bytes.split_at(len))
}

// The bytes behind a length of two bytes.
#[tactic(auto, unfolding(stored_types::specs::Code::framed_at))]
fn framed(alloc: Global, bytes: &[u8]) -> Result<(&[u8], &[u8]), CodeFault>
    ensures { Gives (λ x. (x.0.now, x.1.now)) result (framed_at w16 bytes.now) }
{
    let (len, rest) = u16::take(alloc, bytes)?;
    front_of(usize::from(len), rest)
}

impl Coded for FileName {
    ghost code = { name };

    ghost has_code = { IsFileName };

    ghost read = { file_name_at };

    fn code_len(&self) -> u64 {
        (self.text.bytes().len() as u64).saturating_add(2)
    }

    #[tactic(auto, using(stored_types::proofs::Begins::begins))]
    fn put(&self, to: &mut Blob) -> Result<(), OutOfMemory> {
        put_name(to, &self.text)
    }

    #[tactic(auto, unfolding(crate::specs::Bundle::file_name_at))]
    fn take(alloc: Global, bytes: &[u8]) -> Result<(Self, &[u8]), CodeFault> {
        let (front, rest) = framed(alloc, bytes)?;
        match Text::new(alloc, front) {
            Ok(text) => Ok((FileName { text }, rest)),
            Err(TextFault::Utf8 { .. }) => Err(CodeFault::Bad),
            Err(TextFault::OutOfMemory) => Err(CodeFault::OutOfMemory),
        }
    }

    fn copy(&self, alloc: Global) -> Result<Self, OutOfMemory> {
        Ok(FileName {
            text: self.text.copy(alloc)?,
        })
    }
}
