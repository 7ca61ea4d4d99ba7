ghost use Rattle.store_image.specs.Sealing.{SealedHistories, SealedSteps, SealingAllIsSealing, SealingIsKept, SealingKeepsWhatIsSpent, WhatIsRenewedStands};

/// The same steps may be taken in a state, and in one that has more lines of its outputs sealed.
pub fn sealed_steps()
    ensures { SealedSteps }
{}

/// A step spends the same number in both, or none.
pub fn sealing_keeps_what_is_spent()
    ensures { SealingKeepsWhatIsSpent }
{}

/// A step leads from both to states of which one has more lines sealed, and that are else the same.
pub fn sealing_is_kept()
    ensures { SealingIsKept }
{}

/// So do whole histories.
pub fn sealed_histories()
    ensures { SealedHistories }
{}

/// Sealing all lines of a state makes one that has more lines sealed, and is else the same.
pub fn sealing_all_is_sealing()
    ensures { SealingAllIsSealing }
{}

/// A store whose next generation begins with the state that the one in force leads to, all lines sealed, stands for the same history.
pub fn what_is_renewed_stands()
    ensures { WhatIsRenewedStands }
{}
