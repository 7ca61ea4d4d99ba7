ghost use Rattle.drain_turns.specs.Laws.{AllAskedAreMade, FeedsStayReadable, FreeCallsEndIdle, NobodyOnlyIfHalted, OneDrain, OneStep, OneTurn, OpenedFeedsAreReadable, SomeStep};

/// A turn that has a step has one that may be taken, at whatever moment the clock shows.
pub fn some_step()
    ensures { SomeStep }
{}

/// A turn has no two steps that may be taken at one moment.
pub fn one_step()
    ensures { OneStep }
{}

/// Where the shelf tells what it has, no two turns come next.
pub fn one_turn()
    ensures { OneTurn }
{}

/// Where something is left to do and it is nobody's turn, a bot is halted.
pub fn nobody_only_if_halted()
    ensures { NobodyOnlyIfHalted }
{}

/// Where the shelf tells what it has and the clock its moment, a call that nothing fails makes the same steps and ends in the
/// same way.
pub fn one_drain()
    ensures { OneDrain }
{}

/// A call that ends since it may make no more steps has made as many as it might.
pub fn all_asked_are_made()
    ensures { AllAskedAreMade }
{}

/// A call that may make any number of steps ends only where nothing is left to do, unless something hinders it there, or the
/// outside or memory fails.
pub fn free_calls_end_idle()
    ensures { FreeCallsEndIdle }
{}

/// Along turns the feeds of collectors stay readable.
pub fn feeds_stay_readable()
    ensures { FeedsStayReadable }
{}

/// Where the shelf has the feeds that are read on behind a call's opening, as it is known ahead of the call, they are readable
/// wherever the call comes to behind it.
pub fn opened_feeds_are_readable()
    ensures { OpenedFeedsAreReadable }
{}
