ghost use Rattle.sieve_tokens.specs.Laws.{BadPlaceIsOne, KeywordsHaveTheirTexts, SignsHaveTheirTexts, SpansRise, TokensAreOne, TokensHaveTheirKinds, TokensOrBadPlace};
ghost use Rattle.sieve_tokens.specs.Quoted.{ContentIsMeant};

/// A text has one list of tokens.
pub fn tokens_are_one()
    ensures { TokensAreOne }
{}

/// A text with tokens has no bad place.
pub fn tokens_or_bad_place()
    ensures { TokensOrBadPlace }
{}

/// A text has at most one bad place.
pub fn bad_place_is_one()
    ensures { BadPlaceIsOne }
{}

/// Tokens stand one behind the other in the text, and none is empty.
pub fn spans_rise()
    ensures { SpansRise }
{}

/// Each token's bytes are of its kind.
pub fn tokens_have_their_kinds()
    ensures { TokensHaveTheirKinds }
{}

/// The content of a quoted text is what its bytes and escapes stand for.
pub fn content_is_meant()
    ensures { ContentIsMeant }
{}

/// A sign is found by its own text alone.
pub fn signs_have_their_texts()
    ensures { SignsHaveTheirTexts }
{}

/// A keyword is found by its own text alone.
pub fn keywords_have_their_texts()
    ensures { KeywordsHaveTheirTexts }
{}
