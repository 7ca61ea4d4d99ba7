ghost use Rattle.std.specs.Prelude.{◌≡◌, ◌<◌, ◌≤◌, length, IfSome};
ghost use Rattle.std.specs.List.{prefix_len};
ghost use Rattle.sieve_tokens.specs.Bytes.{is_in_line};
ghost use Rattle.sieve_tokens.specs.Scan.{comment_len, first_end};

// How many bytes stand before the end of the line.
fn line_len(text: &[u8]) -> usize
    ensures value { result ≡ prefix_len is_in_line text.now }
    ensures within { result ≤ length text.now }
{
    text.iter().take_while(|b| **b != b'\n').count()
}

// Where the first `*/` stands.
fn first_end(text: &[u8]) -> Option<usize>
    ensures place { result ≡ first_end 0 text.now }
    ensures within { IfSome result (λ at. at < length text.now) }
{
    'bytes: for at in 0..text.len() {
        if text[at..].starts_with(b"*/") {
            return Some(at);
        }
    }
    None
}

/// The length of the comment at the front of a text that begins with a slash.
#[tactic(auto, unfolding(crate::specs::Scan::comment_len))]
pub fn comment_len(text: &[u8]) -> Option<usize>
    ensures { result ≡ comment_len text.now }
{
    if text.starts_with(b"//") {
        Some(2 + line_len(&text[2..]))
    } else if text.starts_with(b"/*") {
        Some(first_end(&text[2..])? + 4)
    } else {
        None
    }
}
