//! The tokens of a sieve's text: words, quoted texts, numbers and signs, with blanks and comments between.
#![tactic(auto)]

mod blank;
mod bytes;
mod laws;
mod number;
mod piece;
mod quoted;
mod sign;
mod token;
mod word;

pub use laws::{
    bad_place_is_one, content_is_meant, keywords_have_their_texts, signs_have_their_texts,
    spans_rise, tokens_are_one, tokens_have_their_kinds, tokens_or_bad_place,
};
pub use piece::{Piece, first_piece, is_quoted};
pub use quoted::content;
pub use sign::{Sign, sign_of};
pub use token::{Token, TokenFault, TokenKind, TokenList, tokens};
pub use word::{Keyword, keyword_of};
