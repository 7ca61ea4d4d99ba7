ghost use Rattle.std.specs.Prelude.{◌≡◌, ◌≤◌, ◌++◌, length, take, drop, option_and_then, IfSome};
ghost use Rattle.scalar_text.specs.Time.{time_in};
ghost use Rattle.field_types.specs.Written.{address_in};
ghost use Rattle.sieve_eval.specs.Says.{text_of};

use field_types::Value;
use scalar_net::{Ip, read_ip};
use scalar_text::read_time;
use std::marker::Model;

// No shorter than the texts of addresses and of canonical times.
const LONGEST: usize = 48;

// A short text, in place. Contracts see its bytes.
#[derive(Drop)]
struct ShortText {
    bytes: [u8; 48],
    len: usize,
}

impl Model for ShortText {
    ghost use Rattle.std.specs.Prelude.{List, ℕ, ◌≤◌, take};

    ghost Value = { List ℕ };

    ghost view = { λ t. take t.len t.bytes };

    ghost invariant = { λ t. t.len ≤ 48 };
}

impl ShortText {
    // The text with these bytes, if it is short.
    fn new(text: &[u8]) -> Option<ShortText>
        ensures { IfSome result (λ short. short ≡ text.now) }
    {
        if text.len() > LONGEST {
            return None;
        }
        let mut bytes = [0; LONGEST];
        bytes[..text.len()].copy_from_slice(text);
        Some(ShortText {
            bytes,
            len: text.len(),
        })
    }

    fn bytes(&self) -> &[u8]
        ensures { result.now ≡ self.now }
    {
        &self.bytes[..self.len]
    }
}

fn time_in(text: &[u8]) -> Option<u64>
    ensures { result ≡ time_in text.now }
{
    read_time(text).ok()
}

fn address_in(text: &[u8]) -> Option<Ip>
    ensures { result ≡ address_in text.now }
{
    read_ip(text).ok()
}

/// The text that was read last as a time, with that time, so that rules on one field read it once. Contracts see nothing of it.
#[derive(Drop)]
pub struct TimeMemo {
    text: ShortText,
    time: Option<u64>,
}

impl Model for TimeMemo {
    ghost use Rattle.std.specs.Prelude.{◌≡◌};
    ghost use Rattle.scalar_text.specs.Time.{time_in};

    ghost Value = { Unit {0} };

    ghost view = { λ _. tt };

    ghost invariant = { λ m. m.time ≡ time_in m.text };
}

impl TimeMemo {
    pub fn new() -> TimeMemo {
        TimeMemo {
            text: ShortText {
                bytes: [0; LONGEST],
                len: 0,
            },
            time: time_in(b""),
        }
    }

    /// The time that a value writes, if it writes one.
    pub fn read(&mut self, value: &Value) -> Option<u64>
        ensures { result ≡ option_and_then time_in (text_of value.now) }
    {
        match value {
            Value::Text(text) => self.read_text(text.bytes()),
            _ => None,
        }
    }

    fn read_text(&mut self, text: &[u8]) -> Option<u64>
        ensures { result ≡ time_in text.now }
    {
        if self.text.bytes() == text {
            return self.time;
        }
        let time = time_in(text);
        if let Some(text) = ShortText::new(text) {
            *self = TimeMemo { text, time };
        }
        time
    }
}

/// The same of addresses.
#[derive(Drop)]
pub struct AddressMemo {
    text: ShortText,
    address: Option<Ip>,
}

impl Model for AddressMemo {
    ghost use Rattle.std.specs.Prelude.{◌≡◌};
    ghost use Rattle.field_types.specs.Written.{address_in};

    ghost Value = { Unit {0} };

    ghost view = { λ _. tt };

    ghost invariant = { λ m. m.address ≡ address_in m.text };
}

impl AddressMemo {
    pub fn new() -> AddressMemo {
        AddressMemo {
            text: ShortText {
                bytes: [0; LONGEST],
                len: 0,
            },
            address: address_in(b""),
        }
    }

    /// The address that a value writes, if it writes one.
    pub fn read(&mut self, value: &Value) -> Option<Ip>
        ensures { result ≡ option_and_then address_in (text_of value.now) }
    {
        match value {
            Value::Text(text) => self.read_text(text.bytes()),
            _ => None,
        }
    }

    fn read_text(&mut self, text: &[u8]) -> Option<Ip>
        ensures { result ≡ address_in text.now }
    {
        if self.text.bytes() == text {
            return self.address;
        }
        let address = address_in(text);
        if let Some(text) = ShortText::new(text) {
            *self = AddressMemo { text, address };
        }
        address
    }
}
