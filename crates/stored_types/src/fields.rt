//! The codes of fields.
ghost use Rattle.std.specs.Prelude.{◌≡◌, ◌<◌, ◌^◌, ◌++◌, ◌∷◌, [], ℕ, List, length, min, OnOk, IfSome};
ghost use Rattle.std.specs.Int.{to_be_bytes, w16, w32, w64};
ghost use Rattle.base_types.specs.Name.{IsQueueName};
ghost use Rattle.base_types.specs.Number.{last_u64};
ghost use Rattle.stored_types.specs.Code.{blob, bot_at, byte, byte_at, flag, flag_at, framed_at, front_at, moment, moment_at, name, number, number_at, optional, optional_at, queue_at, text_at, IsBlob, IsBot, IsByte, IsMoment, IsNumber, IsOptional, IsText};
ghost use Rattle.stored_types.specs.Coded.{Begins, Gives};

use crate::{CodeFault, Coded};
use base_types::{
    Blob, BotName, Moment, OutOfMemory, QueueName, Text, TextFault, put_u16, put_u32, put_u64,
};
use std::alloc::Global;

impl Coded for u8 {
    ghost code = { byte };

    ghost has_code = { IsByte };

    ghost read = { byte_at };

    fn code_len(&self) -> u64 {
        1
    }

    #[tactic(auto, using(crate::proofs::Begins::begins))]
    fn put(&self, to: &mut Blob) -> Result<(), OutOfMemory> {
        to.append(&[*self])
    }

    #[tactic(auto, unfolding(crate::specs::Code::byte_at))]
    fn take(_: Global, bytes: &[u8]) -> Result<(Self, &[u8]), CodeFault> {
        match bytes {
            [] => Err(CodeFault::Bad),
            [byte, rest @ ..] => Ok((*byte, rest)),
        }
    }

    fn copy(&self, _: Global) -> Result<Self, OutOfMemory> {
        Ok(*self)
    }
}

impl Coded for u16 {
    ghost code = { to_be_bytes w16 };

    ghost has_code = { λ n. n < 2 ^ 16 };

    ghost read = { number_at w16 };

    fn code_len(&self) -> u64 {
        2
    }

    #[tactic(auto, using(crate::proofs::Begins::begins))]
    fn put(&self, to: &mut Blob) -> Result<(), OutOfMemory> {
        put_u16(to, *self)
    }

    #[tactic(auto, unfolding(crate::specs::Code::number_at))]
    fn take(_: Global, bytes: &[u8]) -> Result<(Self, &[u8]), CodeFault> {
        if bytes.len() < 2 {
            return Err(CodeFault::Bad);
        }
        let (front, rest) = bytes.split_at(2);
        let number = u16::from_be_bytes([front[0], front[1]]);
        Ok((number, rest))
    }

    fn copy(&self, _: Global) -> Result<Self, OutOfMemory> {
        Ok(*self)
    }
}

impl Coded for u32 {
    ghost code = { to_be_bytes w32 };

    ghost has_code = { λ n. n < 2 ^ 32 };

    ghost read = { number_at w32 };

    fn code_len(&self) -> u64 {
        4
    }

    #[tactic(auto, using(crate::proofs::Begins::begins))]
    fn put(&self, to: &mut Blob) -> Result<(), OutOfMemory> {
        put_u32(to, *self)
    }

    #[tactic(auto, unfolding(crate::specs::Code::number_at))]
    fn take(_: Global, bytes: &[u8]) -> Result<(Self, &[u8]), CodeFault> {
        if bytes.len() < 4 {
            return Err(CodeFault::Bad);
        }
        let (front, rest) = bytes.split_at(4);
        let number = u32::from_be_bytes([front[0], front[1], front[2], front[3]]);
        Ok((number, rest))
    }

    fn copy(&self, _: Global) -> Result<Self, OutOfMemory> {
        Ok(*self)
    }
}

impl Coded for u64 {
    ghost code = { number };

    ghost has_code = { IsNumber };

    ghost read = { number_at w64 };

    fn code_len(&self) -> u64 {
        8
    }

    #[tactic(auto, using(crate::proofs::Begins::begins))]
    fn put(&self, to: &mut Blob) -> Result<(), OutOfMemory> {
        put_u64(to, *self)
    }

    #[tactic(auto, unfolding(crate::specs::Code::number_at))]
    fn take(_: Global, bytes: &[u8]) -> Result<(Self, &[u8]), CodeFault> {
        if bytes.len() < 8 {
            return Err(CodeFault::Bad);
        }
        let (front, rest) = bytes.split_at(8);
        let number = u64::from_be_bytes([
            front[0], front[1], front[2], front[3], front[4], front[5], front[6], front[7],
        ]);
        Ok((number, rest))
    }

    fn copy(&self, _: Global) -> Result<Self, OutOfMemory> {
        Ok(*self)
    }
}

impl Coded for bool {
    ghost code = { flag };

    ghost has_code = { λ _. Unit {0} };

    ghost read = { flag_at };

    fn code_len(&self) -> u64 {
        1
    }

    #[tactic(auto, using(crate::proofs::Begins::begins))]
    fn put(&self, to: &mut Blob) -> Result<(), OutOfMemory> {
        let byte: u8 = if *self { 1 } else { 0 };
        byte.put(to)
    }

    /// No other byte than 0 and 1 is a flag.
    #[tactic(auto, unfolding(crate::specs::Code::flag_at))]
    fn take(_: Global, bytes: &[u8]) -> Result<(Self, &[u8]), CodeFault> {
        match bytes {
            [0, rest @ ..] => Ok((false, rest)),
            [1, rest @ ..] => Ok((true, rest)),
            _ => Err(CodeFault::Bad),
        }
    }

    fn copy(&self, _: Global) -> Result<Self, OutOfMemory> {
        Ok(*self)
    }
}

impl Coded for Moment {
    ghost code = { moment };

    ghost has_code = { IsMoment };

    ghost read = { moment_at };

    fn code_len(&self) -> u64 {
        8
    }

    #[tactic(auto, using(crate::proofs::Begins::begins))]
    fn put(&self, to: &mut Blob) -> Result<(), OutOfMemory> {
        self.0.put(to)
    }

    #[tactic(auto, unfolding(crate::specs::Code::moment_at))]
    fn take(alloc: Global, bytes: &[u8]) -> Result<(Self, &[u8]), CodeFault> {
        let (seconds, rest) = u64::take(alloc, bytes)?;
        Ok((Moment(seconds), rest))
    }

    fn copy(&self, _: Global) -> Result<Self, OutOfMemory> {
        Ok(*self)
    }
}

// Appends bytes behind their length in two bytes.
#[tactic(auto, using(crate::proofs::Begins::begins))]
fn put_name(to: &mut Blob, bytes: &[u8]) -> Result<(), OutOfMemory>
    ensures code { OnOk result (to.new ≡ to.old ++ name bytes.now) }
    ensures kept { Begins to.old to.new }
{
    let Ok(len) = u16::try_from(bytes.len()) else {
        return Err(OutOfMemory);
    };
    put_u16(to, len)?;
    to.append(bytes)
}

// Appends bytes behind their length in four bytes.
#[tactic(auto, using(crate::proofs::Begins::begins))]
fn put_blob(to: &mut Blob, bytes: &[u8]) -> Result<(), OutOfMemory>
    ensures code { OnOk result (to.new ≡ to.old ++ blob bytes.now) }
    ensures writable { OnOk result (IsBlob bytes.now) }
    ensures kept { Begins to.old to.new }
{
    let Ok(len) = u32::try_from(bytes.len()) else {
        return Err(OutOfMemory);
    };
    put_u32(to, len)?;
    to.append(bytes)
}

#[tactic(auto, unfolding(crate::specs::Code::front_at))]
fn front_of(len: usize, bytes: &[u8]) -> Result<(&[u8], &[u8]), CodeFault>
    ensures { Gives (λ x. (x.0.now, x.1.now)) result (front_at len bytes.now) }
{
    if bytes.len() < len {
        return Err(CodeFault::Bad);
    }
    Ok(bytes.split_at(len))
}

// The bytes behind a length of two bytes.
#[tactic(auto, unfolding(crate::specs::Code::framed_at))]
fn short_of(alloc: Global, bytes: &[u8]) -> Result<(&[u8], &[u8]), CodeFault>
    ensures { Gives (λ x. (x.0.now, x.1.now)) result (framed_at w16 bytes.now) }
{
    let (len, rest) = u16::take(alloc, bytes)?;
    front_of(usize::from(len), rest)
}

// The bytes behind a length of four bytes.
#[tactic(auto, unfolding(crate::specs::Code::framed_at))]
fn long_of(alloc: Global, bytes: &[u8]) -> Result<(&[u8], &[u8]), CodeFault>
    ensures { Gives (λ x. (x.0.now, x.1.now)) result (framed_at w32 bytes.now) }
{
    let (len, rest) = u32::take(alloc, bytes)?;
    front_of(len as usize, rest)
}

impl Coded for Blob {
    ghost code = { blob };

    ghost has_code = { IsBlob };

    ghost read = { framed_at w32 };

    fn code_len(&self) -> u64 {
        (self.bytes().len() as u64).saturating_add(4)
    }

    #[tactic(auto, using(crate::proofs::Begins::begins))]
    fn put(&self, to: &mut Blob) -> Result<(), OutOfMemory> {
        put_blob(to, self.bytes())
    }

    fn take(alloc: Global, bytes: &[u8]) -> Result<(Self, &[u8]), CodeFault> {
        let (front, rest) = long_of(alloc, bytes)?;
        Ok((Blob::new(alloc, front)?, rest))
    }

    fn copy(&self, alloc: Global) -> Result<Self, OutOfMemory> {
        Blob::new(alloc, self.bytes())
    }
}

impl Coded for Text {
    ghost code = { blob };

    ghost has_code = { IsText };

    ghost read = { text_at };

    fn code_len(&self) -> u64 {
        (self.bytes().len() as u64).saturating_add(4)
    }

    #[tactic(auto, using(crate::proofs::Begins::begins))]
    fn put(&self, to: &mut Blob) -> Result<(), OutOfMemory> {
        put_blob(to, self.as_str().as_bytes())
    }

    #[tactic(auto, unfolding(crate::specs::Code::text_at))]
    fn take(alloc: Global, bytes: &[u8]) -> Result<(Self, &[u8]), CodeFault> {
        let (front, rest) = long_of(alloc, bytes)?;
        match Text::new(alloc, front) {
            Ok(text) => Ok((text, rest)),
            Err(TextFault::Utf8 { .. }) => Err(CodeFault::Bad),
            Err(TextFault::OutOfMemory) => Err(CodeFault::OutOfMemory),
        }
    }

    fn copy(&self, alloc: Global) -> Result<Self, OutOfMemory> {
        Text::copy(self, alloc)
    }
}

impl Coded for BotName {
    ghost code = { name };

    ghost has_code = { IsBot };

    ghost read = { bot_at };

    fn code_len(&self) -> u64 {
        (self.bytes().len() as u64).saturating_add(2)
    }

    #[tactic(auto, using(crate::proofs::Begins::begins))]
    fn put(&self, to: &mut Blob) -> Result<(), OutOfMemory> {
        put_name(to, self.bytes())
    }

    #[tactic(auto, unfolding(crate::specs::Code::bot_at))]
    fn take(alloc: Global, bytes: &[u8]) -> Result<(Self, &[u8]), CodeFault> {
        let (front, rest) = short_of(alloc, bytes)?;
        match BotName::new(front) {
            Ok(name) => Ok((name, rest)),
            Err(_) => Err(CodeFault::Bad),
        }
    }

    fn copy(&self, _: Global) -> Result<Self, OutOfMemory> {
        Ok(*self)
    }
}

impl Coded for QueueName {
    ghost code = { name };

    ghost has_code = { IsQueueName };

    ghost read = { queue_at };

    fn code_len(&self) -> u64 {
        (self.bytes().len() as u64).saturating_add(2)
    }

    #[tactic(auto, using(crate::proofs::Begins::begins))]
    fn put(&self, to: &mut Blob) -> Result<(), OutOfMemory> {
        put_name(to, self.bytes())
    }

    #[tactic(auto, unfolding(crate::specs::Code::queue_at))]
    fn take(alloc: Global, bytes: &[u8]) -> Result<(Self, &[u8]), CodeFault> {
        let (front, rest) = short_of(alloc, bytes)?;
        match QueueName::new(front) {
            Ok(name) => Ok((name, rest)),
            Err(_) => Err(CodeFault::Bad),
        }
    }

    fn copy(&self, _: Global) -> Result<Self, OutOfMemory> {
        Ok(*self)
    }
}

impl Coded for Option<Blob> {
    ghost code = { optional };

    ghost has_code = { IsOptional };

    ghost read = { optional_at };

    fn code_len(&self) -> u64 {
        match self {
            None => 1,
            Some(blob) => blob.code_len().saturating_add(1),
        }
    }

    #[tactic(auto, using(crate::proofs::Begins::begins))]
    fn put(&self, to: &mut Blob) -> Result<(), OutOfMemory> {
        match self {
            None => 0u8.put(to),
            Some(blob) => {
                1u8.put(to)?;
                blob.put(to)
            }
        }
    }

    #[tactic(auto, unfolding(crate::specs::Code::optional_at))]
    fn take(alloc: Global, bytes: &[u8]) -> Result<(Self, &[u8]), CodeFault> {
        match bytes {
            [] => Err(CodeFault::Bad),
            [0, rest @ ..] => Ok((None, rest)),
            [1, rest @ ..] => {
                let (blob, rest) = Blob::take(alloc, rest)?;
                Ok((Some(blob), rest))
            }
            [_, ..] => Err(CodeFault::Bad),
        }
    }

    fn copy(&self, alloc: Global) -> Result<Self, OutOfMemory> {
        match self {
            None => Ok(None),
            Some(blob) => Ok(Some(blob.copy(alloc)?)),
        }
    }
}
