use sieve_tokens::{Keyword, Sign};

/// What a token stands for. Of a quoted text it has the bytes with their quotes.
#[derive(Clone, Copy)]
pub enum Symbol<'t> {
    Key(Keyword),
    Name(&'t [u8]),
    Quoted(&'t [u8]),
    Whole(i64),
    Decimal(i64),
    Sign(Sign),
}
