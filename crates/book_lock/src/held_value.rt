// A file of its own: the clause names the row of `Held`, which the file that declares `Held` can't import.
ghost use Rattle.std.specs.Prelude.{◌≡◌, []};
ghost use Rattle.std.specs.Borrow.{Lends, sem};
ghost use mir.Syntax.{named};
ghost use Rattle.book_lock.specs.contracts.lock.Held.{the_row};

use crate::grows::Grows;
use crate::lock::Held;

impl<'l, V: Grows> Held<'l, V> {
    /// The value. What is written to it stays with the turn.
    pub fn value(&mut self) -> &mut V
        ensures* writes_back { sem 𝓛 (Lends (the_row (record { mir = named 1; lft = [] }) V.row V.Entry.row V.Grows) V.row self.entry result (λ v. record self.old { value = v })) }
        ensures value { result.now ≡ self.old.value }
    {
        &mut self.value
    }
}
