ghost use Rattle.std.specs.Prelude.{◌≡◌, [], ◌++◌, if◌then◌else◌, IfOk, OnOk};
ghost use Rattle.sieve_reader.specs.Lexeme.{is_pattern_sign};
ghost use Rattle.sieve_reader.specs.Outcome.{spot_at};
ghost use Rattle.sieve_reader.specs.Parse as spec;
ghost use Rattle.sieve_reader.specs.Reads.{goes_on, is_path, opens_row, path_spots, paths_in, patterns_in, row_spots, text_at};

use crate::cursor::Cursor;
use crate::list::push;
use crate::symbol::Symbol;
use base_types::{ListOf, OutOfMemory, TextList};
use sieve_tokens::{Keyword, Sign, content};
use sieve_tree::PathSpots;
use std::alloc::Global;

fn sees_pattern_sign(tokens: &Cursor<'_>) -> bool
    ensures { result ≡ spec.sees is_pattern_sign tokens.now }
{
    matches!(
        tokens.peek(),
        Some(Symbol::Sign(Sign::Matches | Sign::NotMatches))
    )
}

fn sees_path(tokens: &Cursor<'_>) -> bool
    ensures { result ≡ spec.sees is_path tokens.now }
{
    matches!(tokens.peek(), Some(Symbol::Key(Keyword::Path)))
}

fn opens_row(tokens: &Cursor<'_>) -> bool
    ensures { result ≡ spec.sees opens_row tokens.now }
{
    matches!(tokens.peek(), Some(Symbol::Sign(Sign::OpenBracket)))
}

fn goes_on(tokens: &Cursor<'_>) -> bool
    ensures { result ≡ spec.sees goes_on tokens.now }
{
    matches!(
        tokens.peek(),
        Some(Symbol::Quoted(_) | Symbol::Sign(Sign::Comma))
    )
}

// The quoted text that is next goes to the end, if it is asked for.
fn push_text(
    alloc: Global,
    tokens: &Cursor<'_>,
    is_asked: bool,
    found: &mut TextList,
) -> Result<(), OutOfMemory>
    ensures { OnOk result (found.new ≡ found.old ++ (if is_asked then text_at tokens.now else [])) }
{
    if !is_asked {
        return Ok(());
    }
    let Some(Symbol::Quoted(piece)) = tokens.peek() else {
        return Ok(());
    };
    let text = content(alloc, piece)?;
    push(found, text)
}

/// The texts behind `=~` and `!~`.
pub fn patterns(alloc: Global, tokens: &mut Cursor<'_>) -> Result<TextList, OutOfMemory>
    ensures { IfOk result (λ found. found ≡ patterns_in tokens.old) }
{
    let mut found = ListOf::new(alloc);
    'turns: for _turn in 0..tokens.left() {
        let is_behind = sees_pattern_sign(tokens);
        tokens.skip();
        push_text(alloc, tokens, is_behind, &mut found)?;
    }
    Ok(found)
}

// The quoted text that is next goes to the end, with its offset.
fn push_spot(alloc: Global, tokens: &Cursor<'_>, found: &mut PathSpots) -> Result<(), OutOfMemory>
    ensures { OnOk result (found.new ≡ found.old ++ spot_at tokens.now) }
{
    let at = tokens.at();
    let Some(Symbol::Quoted(piece)) = tokens.peek() else {
        return Ok(());
    };
    let name = content(alloc, piece)?;
    push(found, (name, at))
}

// Those with commas between.
fn push_row(
    alloc: Global,
    tokens: &mut Cursor<'_>,
    found: &mut PathSpots,
) -> Result<(), OutOfMemory>
    ensures { OnOk result (found.new ≡ found.old ++ row_spots tokens.old) }
{
    'turns: for _turn in 0..tokens.left() {
        if !goes_on(tokens) {
            return Ok(());
        }
        push_spot(alloc, tokens, found)?;
        tokens.skip();
    }
    Ok(())
}

// The names behind `path`, if they are asked for.
fn push_spots(
    alloc: Global,
    tokens: &Cursor<'_>,
    is_asked: bool,
    found: &mut PathSpots,
) -> Result<(), OutOfMemory>
    ensures { OnOk result (found.new ≡ found.old ++ (if is_asked then path_spots tokens.now else [])) }
{
    if !is_asked {
        return Ok(());
    }
    if !opens_row(tokens) {
        return push_spot(alloc, tokens, found);
    }
    let mut row = tokens.copy();
    row.skip();
    push_row(alloc, &mut row, found)
}

/// The names behind `path`, with their offsets.
pub fn paths(alloc: Global, tokens: &mut Cursor<'_>) -> Result<PathSpots, OutOfMemory>
    ensures { IfOk result (λ found. found ≡ paths_in tokens.old) }
{
    let mut found = ListOf::new(alloc);
    'turns: for _turn in 0..tokens.left() {
        let is_behind = sees_path(tokens);
        tokens.skip();
        push_spots(alloc, tokens, is_behind, &mut found)?;
    }
    Ok(found)
}
