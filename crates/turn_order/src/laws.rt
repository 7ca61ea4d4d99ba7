ghost use Rattle.turn_order.specs.Laws.{FirstActorsMayAct, FullHandsFit, HandsAreLive, IdleIsTold, NothingWaits, TakesFit};

/// `is_idle` tells whether nothing is left to do.
pub fn idle_is_told()
    ensures { IdleIsTold }
{}

/// A full hand is that of a live instance.
pub fn hands_are_live()
    ensures { HandsAreLive }
{}

/// What a live instance with a full hand does to its message fits the state.
pub fn full_hands_fit()
    ensures { FullHandsFit }
{}

/// What an instance takes that may take a message fits the state.
pub fn takes_fit()
    ensures { TakesFit }
{}

/// What the first bot does that may step, it may do.
pub fn first_actors_may_act()
    ensures { FirstActorsMayAct }
{}

/// Where no bot may step and none is halted, nothing waits and no hand is full.
pub fn nothing_waits()
    ensures { NothingWaits }
{}
