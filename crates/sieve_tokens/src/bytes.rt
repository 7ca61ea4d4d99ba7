ghost use Rattle.std.specs.Prelude.{◌≡◌};
ghost use Rattle.sieve_tokens.specs.Bytes.{begins, goes_on, is_blank_byte, is_letter, is_word_start};

pub fn is_blank_byte(b: u8) -> bool
    ensures { result ≡ is_blank_byte b }
{
    matches!(b, b' ' | b'\t' | b'\n' | b'\r')
}

pub fn is_letter(b: u8) -> bool
    ensures { result ≡ is_letter b }
{
    matches!(b, b'a'..=b'z' | b'A'..=b'Z')
}

pub fn is_word_start(b: u8) -> bool
    ensures { result ≡ is_word_start b }
{
    is_letter(b) || b == b'_'
}

/// Whether a number that ends before these bytes would go on in them.
pub fn goes_on(text: &[u8]) -> bool
    ensures { result ≡ begins goes_on text.now }
{
    match text.first() {
        None => false,
        Some(b) => is_letter(*b) || matches!(b, b'0'..=b'9' | b'_' | b'.'),
    }
}
