ghost use Rattle.store_commands.specs.Laws.{SealedStatesPrintAlike};

/// A state, and one that has more lines of its outputs sealed, are printed alike: the summary, and what is shown of them.
pub fn sealed_states_print_alike()
    ensures { SealedStatesPrintAlike }
{}
