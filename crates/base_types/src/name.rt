ghost use Rattle.std.specs.Prelude.{◌≡◌, ◌≤◌, ◌+◌, ◌-◌, ◌++◌, List, ℕ, true, false, length, take, drop, codes, nat_le, ◌&&◌, ◌≢◌, MatchResult, MatchOption};
ghost use Rattle.std.specs.List.{list_all};
ghost use Rattle.std.specs.Str.{bytes_eq};
ghost use Rattle.std.proofs.Common.{rules};
ghost use Rattle.std.specs.Cmp.Rules.{comparing};
ghost use Rattle.base_types.specs.Name.{is_bot_name, is_name_byte, IsQueueName, queue_ending};

use std::marker::Model;

const QUEUE_ENDING: &[u8] = b"-queue";

const LONGEST_BOT_NAME: usize = 64;

const LONGEST_NAME: usize = 70;

/// The bytes are no name.
#[derive(Clone, Copy, Debug, PartialEq, Eq)]
pub enum NameFault {
    Shape,
}

// A name in place, with zeros behind it.
#[derive(Clone, Copy, Debug)]
struct ShortName {
    bytes: [u8; 70],
    len: usize,
}

impl Model for ShortName {
    ghost use Rattle.std.specs.Prelude.{List, ℕ, length, take};
    ghost use Rattle.base_types.specs.Padded.{padded, padded_back, IsPadded};

    ghost Value = { List ℕ };

    ghost view = { λ n. take n.len n.bytes };

    ghost invariant = { λ n. IsPadded n.bytes n.len };

    ghost inverse = { λ name. record { bytes = padded name; len = length name } };

    ghost inverse_ok = { λ n h i. record { bytes = (padded_back n.bytes n.len h).0 i; len = (padded_back n.bytes n.len h).1 i } };
}

impl ShortName {
    fn bytes(&self) -> &[u8]
        ensures { result.now ≡ self.now }
    {
        &self.bytes[..self.len]
    }
}

fn write_at(bytes: &mut [u8], at: usize, piece: &[u8])
    requires { at + length piece.now ≤ length bytes.old }
    ensures { bytes.new ≡ take at bytes.old ++ piece.now ++ drop (at + length piece.now) bytes.old }
{
    bytes[at..at + piece.len()].copy_from_slice(piece);
}

// `front` and then `end`.
fn joined(front: &[u8], end: &[u8]) -> ShortName
    requires { length front.now + length end.now ≤ 70 }
    ensures { result ≡ front.now ++ end.now }
{
    let mut bytes = [0; LONGEST_NAME];
    write_at(&mut bytes, 0, front);
    write_at(&mut bytes, front.len(), end);
    ShortName {
        bytes,
        len: front.len() + end.len(),
    }
}

fn is_bot_name(bytes: &[u8]) -> bool
    ensures { result ≡ is_bot_name bytes.now }
{
    has_name_length(bytes) && has_name_bytes(bytes) && !is_global(bytes)
}

fn has_name_bytes(bytes: &[u8]) -> bool
    ensures { result ≡ list_all is_name_byte bytes.now }
{
    bytes.iter().all(|b| is_name_byte(*b))
}

fn has_name_length(bytes: &[u8]) -> bool
    ensures { result ≡ (nat_le 1 (length bytes.now) && nat_le (length bytes.now) 64) }
{
    !bytes.is_empty() && bytes.len() <= LONGEST_BOT_NAME
}

fn is_global(bytes: &[u8]) -> bool
    ensures { result ≡ bytes_eq bytes.now (codes "global") }
{
    bytes == b"global".as_slice()
}

fn is_name_byte(b: u8) -> bool
    ensures { result ≡ is_name_byte b }
{
    matches!(b, b'a'..=b'z' | b'A'..=b'Z' | b'0'..=b'9' | b'-' | b'_' | b'.')
}

/// The name of a bot: 1 to 64 ASCII letters, digits, `-`, `_` or `.`, and not `global`.
#[derive(Clone, Copy, Debug)]
pub struct BotName {
    name: ShortName,
}

impl Model for BotName {
    ghost Value = { List ℕ };

    ghost view = { λ b. b.name };

    ghost invariant = { λ b. is_bot_name b.name ≡ true };

    ghost inverse = { λ name. record { name = name } };
}

impl PartialEq for BotName {
    ghost eq = { bytes_eq };

    ghost laws = { Prim.search (comparing, rules) };

    fn eq(&self, other: &BotName) -> bool {
        self.bytes() == other.bytes()
    }
}

impl Eq for BotName {
    ghost laws = { Prim.search (comparing, rules) };
}

impl BotName {
    pub fn new(bytes: &[u8]) -> Result<BotName, NameFault>
        ensures { MatchResult result (λ name. (name ≡ bytes.now) × (is_bot_name bytes.now ≡ true)) (λ _. is_bot_name bytes.now ≡ false) }
    {
        if is_bot_name(bytes) {
            Ok(BotName {
                name: joined(bytes, b""),
            })
        } else {
            Err(NameFault::Shape)
        }
    }

    pub fn bytes(&self) -> &[u8]
        ensures bytes { result.now ≡ self.now }
        ensures name { is_bot_name self.now ≡ true }
    {
        self.name.bytes()
    }
}

/// The name of a bot's queue: the bot's name and `-queue`.
#[derive(Clone, Copy, Debug)]
pub struct QueueName {
    name: ShortName,
}

impl Model for QueueName {
    ghost Value = { List ℕ };

    ghost view = { λ q. q.name };

    ghost invariant = { λ q. IsQueueName q.name };

    ghost inverse = { λ name. record { name = name } };
}

impl PartialEq for QueueName {
    ghost eq = { bytes_eq };

    ghost laws = { Prim.search (comparing, rules) };

    fn eq(&self, other: &QueueName) -> bool {
        self.bytes() == other.bytes()
    }
}

impl Eq for QueueName {
    ghost laws = { Prim.search (comparing, rules) };
}

impl QueueName {
    pub fn new(bytes: &[u8]) -> Result<QueueName, NameFault>
        ensures { MatchResult result (λ name. (name ≡ bytes.now) × IsQueueName bytes.now) (λ _. IsQueueName bytes.now → ⊥) }
    {
        let Some(front) = without_ending(bytes) else {
            return Err(NameFault::Shape);
        };
        match BotName::new(front) {
            Ok(bot) => Ok(queue_of(&bot)),
            Err(fault) => Err(fault),
        }
    }

    pub fn bytes(&self) -> &[u8]
        ensures bytes { result.now ≡ self.now }
        ensures name { IsQueueName self.now }
    {
        self.name.bytes()
    }
}

// What stands before `-queue` at the end.
fn without_ending(bytes: &[u8]) -> Option<&[u8]>
    ensures { MatchOption result ((bot : List ℕ) → bytes.now ≢ bot ++ queue_ending) (λ bot. bytes.now ≡ bot.now ++ queue_ending) }
{
    bytes.strip_suffix(QUEUE_ENDING)
}

/// The name of the bot's queue.
pub fn queue_of(bot: &BotName) -> QueueName
    ensures { result ≡ bot.now ++ queue_ending }
{
    QueueName {
        name: joined(bot.bytes(), QUEUE_ENDING),
    }
}
