ghost use Rattle.std.specs.Prelude.{◌≡◌, ◌<◌, length, IsTrue, MatchOption};
ghost use Rattle.scalar_text.specs.Strip.{is_blank, strip, strip_front, strip_back};

// What is behind a blank at the front.
fn behind_blank(text: &str) -> Option<&str>
    ensures { MatchOption result (strip_front text.now ≡ text.now)
        (λ rest. (strip_front text.now ≡ strip_front rest.now) × (length rest.now < length text.now)) }
{
    match text.strip_prefix(' ') {
        Some(rest) => Some(rest),
        None => text.strip_prefix('\t'),
    }
}

// What is before a blank at the end.
fn before_blank(text: &str) -> Option<&str>
    ensures { MatchOption result (strip_back text.now ≡ text.now)
        (λ rest. (strip_back text.now ≡ strip_back rest.now) × (length rest.now < length text.now)) }
{
    match text.strip_suffix(' ') {
        Some(rest) => Some(rest),
        None => text.strip_suffix('\t'),
    }
}

fn strip_front(text: &str) -> &str
    ensures { result.now ≡ strip_front text.now }
{
    let mut rest = text;
    'blanks: while let Some(next) = behind_blank(rest) {
        rest = next;
    }
    rest
}

fn strip_back(text: &str) -> &str
    ensures { result.now ≡ strip_back text.now }
{
    let mut rest = text;
    'blanks: while let Some(next) = before_blank(rest) {
        rest = next;
    }
    rest
}

fn is_blank(byte: u8) -> bool
    ensures { result ≡ is_blank byte }
{
    byte == b' ' || byte == b'\t'
}

// Whether no blank is at an end of a text of two bytes or more.
fn has_bare_ends(text: &[u8]) -> bool
    ensures { IsTrue result → strip text.now ≡ text.now }
{
    match text {
        [first, .., last] => !is_blank(*first) && !is_blank(*last),
        _ => false,
    }
}

/// The text without the spaces and tabs at both ends. It takes no memory.
#[tactic(auto, unfolding(crate::specs::Strip::strip))]
pub fn strip(text: &str) -> &str
    ensures { result.now ≡ strip text.now }
{
    if has_bare_ends(text.as_bytes()) {
        return text;
    }
    strip_back(strip_front(text))
}
