ghost use Rattle.sieve_reader.specs.Answer.{TextGivesOne};
ghost use Rattle.sieve_reader.specs.Laws.{OneRefusal, OneSieve, SieveExcludesRefusal, SieveOrRefusal};

/// A text writes one sieve at most.
pub fn text_writes_one_sieve()
    ensures { OneSieve }
{}

/// The tokens of a text are refused in one way at most.
pub fn refusal_is_one()
    ensures { OneRefusal }
{}

/// A text that writes a sieve isn't refused.
pub fn sieve_excludes_refusal()
    ensures { SieveExcludesRefusal }
{}

/// A text with tokens writes a sieve, or it is refused.
pub fn sieve_or_refusal()
    ensures { SieveOrRefusal }
{}

/// Each text writes a sieve or has something wrong with it first, and one of both alone.
pub fn text_gives_one()
    ensures { TextGivesOne }
{}
