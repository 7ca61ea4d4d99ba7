ghost use Rattle.std.specs.Prelude.{◌≡◌, find};
ghost use Rattle.sieve_tokens.specs.Sign.{sign_of, sign_text};
ghost use Rattle.sieve_tokens.specs.Scan.{sign_at};

/// The signs of the language.
#[derive(Clone, Copy, Debug, PartialEq, Eq)]
pub enum Sign {
    OpenBrace,
    CloseBrace,
    OpenParen,
    CloseParen,
    OpenBracket,
    CloseBracket,
    Comma,
    And,
    Or,
    /// `==`
    Equal,
    /// `=~`
    Matches,
    /// `=`
    Assign,
    /// `!=`
    Differs,
    /// `!~`
    NotMatches,
    /// `!`
    Not,
    /// `<<`
    Within,
    LessOrEqual,
    Less,
    GreaterOrEqual,
    Greater,
    Exists,
    NotExists,
    Contains,
    In,
    Before,
    After,
}

// None of them is the front of a later one.
const SIGNS: [Sign; 26] = [
    Sign::OpenBrace,
    Sign::CloseBrace,
    Sign::OpenParen,
    Sign::CloseParen,
    Sign::OpenBracket,
    Sign::CloseBracket,
    Sign::Comma,
    Sign::And,
    Sign::Or,
    Sign::Equal,
    Sign::Matches,
    Sign::Assign,
    Sign::Differs,
    Sign::NotMatches,
    Sign::Not,
    Sign::Within,
    Sign::LessOrEqual,
    Sign::Less,
    Sign::GreaterOrEqual,
    Sign::Greater,
    Sign::Exists,
    Sign::NotExists,
    Sign::Contains,
    Sign::In,
    Sign::Before,
    Sign::After,
];

impl Sign {
    /// How the sign is written.
    pub fn text(self) -> &'static [u8]
        ensures { result.now ≡ sign_text self }
    {
        match self {
            Sign::OpenBrace => b"{",
            Sign::CloseBrace => b"}",
            Sign::OpenParen => b"(",
            Sign::CloseParen => b")",
            Sign::OpenBracket => b"[",
            Sign::CloseBracket => b"]",
            Sign::Comma => b",",
            Sign::And => b"&&",
            Sign::Or => b"||",
            Sign::Equal => b"==",
            Sign::Matches => b"=~",
            Sign::Assign => b"=",
            Sign::Differs => b"!=",
            Sign::NotMatches => b"!~",
            Sign::Not => b"!",
            Sign::Within => b"<<",
            Sign::LessOrEqual => b"<=",
            Sign::Less => b"<",
            Sign::GreaterOrEqual => b">=",
            Sign::Greater => b">",
            Sign::Exists => b":exists",
            Sign::NotExists => b":notexists",
            Sign::Contains => b":contains",
            Sign::In => b":in",
            Sign::Before => b":before",
            Sign::After => b":after",
        }
    }
}

/// The sign with this text, if there is one.
pub fn sign_of(piece: &[u8]) -> Option<Sign>
    ensures { result ≡ sign_of piece.now }
{
    SIGNS.iter().copied().find(|s| piece == s.text())
}

/// The longest sign that the text begins with.
#[tactic(auto, unfolding(crate::specs::Scan::sign_at))]
pub fn sign_at(text: &[u8]) -> Option<Sign>
    ensures { result ≡ sign_at text.now }
{
    SIGNS.iter().copied().find(|s| text.starts_with(s.text()))
}
