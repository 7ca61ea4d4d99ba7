ghost use Rattle.std.specs.Prelude.{◌≡◌, List, Option, find};
ghost use Rattle.std.specs.List.{prefix_len};
ghost use Rattle.std.specs.Str.{bytes_eq};
ghost use Rattle.base_types.specs.Name.{is_name_byte};
ghost use Rattle.sieve_tokens.specs.Word.{keyword_of, keyword_text};
ghost use Rattle.sieve_tokens.specs.Scan.{word_len};

/// The words that name no field.
#[derive(Clone, Copy, Debug, PartialEq, Eq)]
pub enum Keyword {
    If,
    Elif,
    Else,
    Keep,
    Drop,
    Path,
    Add,
    /// `add!`
    Force,
    Update,
    Remove,
    True,
    False,
}

const KEYWORDS: [Keyword; 12] = [
    Keyword::If,
    Keyword::Elif,
    Keyword::Else,
    Keyword::Keep,
    Keyword::Drop,
    Keyword::Path,
    Keyword::Add,
    Keyword::Force,
    Keyword::Update,
    Keyword::Remove,
    Keyword::True,
    Keyword::False,
];

const FORCE: &[u8] = b"add!";

impl Keyword {
    /// The word itself.
    pub fn text(self) -> &'static [u8]
        ensures { result.now ≡ keyword_text self }
    {
        match self {
            Keyword::If => b"if",
            Keyword::Elif => b"elif",
            Keyword::Else => b"else",
            Keyword::Keep => b"keep",
            Keyword::Drop => b"drop",
            Keyword::Path => b"path",
            Keyword::Add => b"add",
            Keyword::Force => b"add!",
            Keyword::Update => b"update",
            Keyword::Remove => b"remove",
            Keyword::True => b"true",
            Keyword::False => b"false",
        }
    }
}

/// The keyword that a word is, if it is one.
pub fn keyword_of(piece: &[u8]) -> Option<Keyword>
    ensures { result ≡ keyword_of piece.now }
{
    KEYWORDS.iter().copied().find(|k| piece == k.text())
}

fn is_name_byte(b: u8) -> bool
    ensures { result ≡ is_name_byte b }
{
    matches!(b, b'a'..=b'z' | b'A'..=b'Z' | b'0'..=b'9' | b'-' | b'_' | b'.')
}

fn name_len(text: &[u8]) -> usize
    ensures { result ≡ prefix_len is_name_byte text.now }
{
    text.iter().take_while(|b| is_name_byte(**b)).count()
}

/// The length of the word at the front of a text that begins as a word does.
#[tactic(auto, unfolding(crate::specs::Scan::word_len))]
pub fn word_len(text: &[u8]) -> usize
    ensures { result ≡ word_len text.now }
{
    if text.starts_with(FORCE) {
        FORCE.len()
    } else {
        name_len(text)
    }
}
