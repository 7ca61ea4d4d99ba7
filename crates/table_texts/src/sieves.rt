//! Tokens of sieves.
use base_types::OutOfMemory;
use sieve_tokens::{TokenFault, TokenList, content, is_quoted, keyword_of, sign_of, tokens};
use std::alloc::Global;
use table_lines::escaped;

// The tokens of a text, or the offset of its bad place.
fn read(alloc: Global, text: &[u8]) -> Result<Result<TokenList, u32>, OutOfMemory> {
    if text.len() > 1_000_000 {
        return Ok(Err(0));
    }
    match tokens(alloc, text) {
        Ok(found) => Ok(Ok(found)),
        Err(TokenFault::Bad { at }) => Ok(Err(at)),
        Err(TokenFault::OutOfMemory) => Err(OutOfMemory),
    }
}

/// The kinds of a text's tokens, with the offsets of their first bytes and of what follows them.
pub fn tokens_of(alloc: Global, text: &[u8]) -> Result<String, OutOfMemory> {
    match read(alloc, text)? {
        Ok(found) => kinds(alloc, &found),
        Err(at) => Ok(format!(in alloc; "bad at {at}")?),
    }
}

fn kinds(alloc: Global, found: &TokenList) -> Result<String, OutOfMemory> {
    let mut answer = String::from_str(alloc, if found.len() == 0 { "none" } else { "" })?;
    for token in found.as_slice() {
        if !answer.is_empty() {
            answer.push_str(", ")?;
        }
        let kind = token.kind;
        let from = token.from;
        let upto = token.upto;
        answer.push_str(format!(in alloc; "{kind:?} {from} {upto}")?.as_str())?;
    }
    Ok(answer)
}

/// How many tokens a text has.
pub fn count_tokens(alloc: Global, text: &[u8]) -> Result<String, OutOfMemory> {
    match read(alloc, text)? {
        Ok(found) => {
            let count = found.len();
            Ok(format!(in alloc; "{count} tokens")?)
        }
        Err(at) => Ok(format!(in alloc; "bad at {at}")?),
    }
}

/// What a quoted text stands for.
pub fn content_of(alloc: Global, piece: &[u8]) -> Result<String, OutOfMemory> {
    if !is_quoted(piece) {
        return Ok(String::from_str(alloc, "not quoted")?);
    }
    Ok(escaped(alloc, content(alloc, piece)?.bytes())?)
}

/// The keyword that a text is.
pub fn keyword(alloc: Global, text: &[u8]) -> Result<String, OutOfMemory> {
    match keyword_of(text) {
        Some(keyword) => Ok(format!(in alloc; "{keyword:?}")?),
        None => Ok(String::from_str(alloc, "none")?),
    }
}

/// The sign that a text is.
pub fn sign(alloc: Global, text: &[u8]) -> Result<String, OutOfMemory> {
    match sign_of(text) {
        Some(sign) => Ok(format!(in alloc; "{sign:?}")?),
        None => Ok(String::from_str(alloc, "none")?),
    }
}
