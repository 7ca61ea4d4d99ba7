ghost use Rattle.std.specs.Prelude.{◌≡◌, ◌≢◌, ◌≤◌, ◌↔◌, ◌++◌, [], ◌∷◌, true, false, length, None, Some, Err, IfOk, IfErr, OnOk, OnErr, IsErrOf};
ghost use mathlib.Core.List.{IsPrefix};
ghost use Rattle.edge_traits.specs.Count.{Rose};
ghost use Rattle.ack_steps.specs.Core.{HasNearFeeds, HasSoundHands};
ghost use Rattle.step_code.specs.Fits.{Fits};
ghost use Rattle.step_code.specs.Rules.{last_moment};
ghost use Rattle.journal_book.specs.Book.{waiting_steps};
ghost use Rattle.journal_book.specs.Staged.{staged, stamp, step_cause, IsMove};
ghost use Rattle.book_runs.specs.Commit.{is_to_renew};
ghost use Rattle.book_runs.specs.GoesOn.{longer, IsSameBook};
ghost use Rattle.locked_book.specs.Entries.{entries_of, made_entries, mark_entries};
ghost use Rattle.locked_book.specs.Locked.{mark_of, IsHoldFault, IsRound};

use crate::{EndMark, Entry, HoldFault};
use ack_steps::Core;
use book_lock::Grows;
use book_runs::{CommitFault, commit_within, is_half_full};
use edge_traits::{Disk, Failed};
use journal_book::{Book, FlushFault, Move, StageRefusal};
use std::marker::Model;
use std::snapshot::Snapshot;
use step_code::Rules;

// No more steps are made in a round, so that the list can be counted.
const MOST_MADE: u64 = 1 << 62;

/// A book in a round, and why no further step is made.
#[derive(Drop)]
pub struct Locked<D: Disk, R: Rules> {
    // The book as the round began.
    opening: Snapshot<Book<D, R>>,
    book: Book<D, R>,
    // How many steps were made since then.
    made: u64,
    mark: Option<EndMark>,
}

impl<D: Disk, R: Rules> Model for Locked<D, R> {
    ghost use Rattle.std.specs.Prelude.{◌≡◌, length};
    ghost use Rattle.locked_book.specs.Locked.{made_since, IsRound, LockedView};

    ghost Value = { LockedView D R };

    ghost view = { λ l. record { opening = l.opening.value; made = made_since l.opening.value l.book; book = l.book; mark = l.mark } };

    ghost invariant = { λ l. IsRound D.disk R.meaning l.opening.value (made_since l.opening.value l.book) l.book l.mark × (l.made ≡ length (made_since l.opening.value l.book)) };
}

impl<D: Disk, R: Rules> Grows for Locked<D, R> {
    ghost use Rattle.locked_book.specs.Entries.{entries_of};

    type Entry = Entry<Book<D, R>>;

    ghost entries = { entries_of R.meaning };

    fn count(&self) -> u64 {
        let marks = if self.mark.is_some() { 1 } else { 0 };
        1 + self.made + marks
    }
}

impl<D: Disk, R: Rules> Locked<D, R> {
    /// A round that begins with this book.
    pub fn open(book: Book<D, R>) -> Locked<D, R>
        requires whole { book.broken ≡ false }
        ensures { result ≡ record { opening = book; made = []; book = book; mark = None } }
    {
        let opening = Snapshot::of(&book);
        Locked {
            opening,
            book,
            made: 0,
            mark: None,
        }
    }

    /// The state, ready to be read.
    pub fn core(&self) -> &Core<R>
        ensures core { result.now ≡ record { rules = self.now.book.rules; state = self.now.book.state } }
        ensures round { IsRound D.disk R.meaning self.now.opening self.now.made self.now.book self.now.mark }
        ensures hands { HasSoundHands R.meaning self.now.book.state }
        ensures feeds { HasNearFeeds self.now.book.state }
        ensures latest { self.now.book.state.latest.0 ≤ last_moment }
    {
        self.book.state()
    }

    /// Why no further step is made, if the round has a mark.
    pub fn mark(&self) -> Option<EndMark>
        ensures { result ≡ self.now.mark }
    {
        self.mark
    }

    /// How many steps were made in the round.
    pub fn made(&self) -> u64
        ensures { result ≡ length self.now.made }
    {
        self.made
    }

    /// Commits the step that a move comes to when the clock shows this moment, in seconds since 1970. Where as many steps wait for a flush
    /// as may, they are made durable first. Answers the number of the step.
    ///
    /// # Errors
    ///
    /// `Half` where more than half of the generation is taken, and `Disk`; the round has that mark then. `Refused`. No step was made.
    pub fn commit(&mut self, now: u64, what: Move) -> Result<u64, HoldFault>
        requires unmarked { self.old.mark ≡ None }
        requires content { Fits R.meaning self.old.book.state (staged R.meaning self.old.book.state now what) → IsMove R.meaning self.old.book.format self.old.book.state (stamp self.old.book.state now).0 what }
        ensures opening { self.new.opening ≡ self.old.opening }
        ensures made { OnOk result (self.new.made ≡ self.old.made ++ staged R.meaning self.old.book.state now what ∷ []) }
        ensures book { OnOk result (self.new.book ≡ longer R.meaning self.old.book (staged R.meaning self.old.book.state now what ∷ []) self.new.book) }
        ensures unmarked { OnOk result (self.new.mark ≡ None) }
        ensures entry { OnOk result (entries_of R.meaning self.new ≡ entries_of R.meaning self.old ++ made_entries R.meaning self.old.book.state (staged R.meaning self.old.book.state now what ∷ [])) }
        ensures number { IfOk result (λ number. number ≡ self.new.book.state.steps) }
        ensures causes { OnOk result (step_cause R.meaning self.old.book.state self.old.book.steps self.old.book.limit (staged R.meaning self.old.book.state now what) ≡ None) }
        ensures half { IsErrOf result HoldFault.Half ↔ (is_to_renew self.old.book ≡ true) }
        ensures refused { IfErr result (IsHoldFault (step_cause R.meaning self.old.book.state self.old.book.steps self.old.book.limit (staged R.meaning self.old.book.state now what))) }
        ensures made_err { OnErr result (self.new.made ≡ self.old.made) }
        ensures book_err { OnErr result (IsSameBook self.old.book self.new.book) }
        ensures mark_err { IfErr result (λ fault. self.new.mark ≡ mark_of fault) }
        ensures entry_err { IfErr result (λ fault. entries_of R.meaning self.new ≡ entries_of R.meaning self.old ++ mark_entries (mark_of fault)) }
        ensures grows { IsPrefix (entries_of R.meaning self.old) (entries_of R.meaning self.new) }
        ensures failed { IsErrOf result HoldFault.Disk → Rose (D.disk self.old.book.disk).faults (D.disk self.new.book.disk).faults }
        ensures count { (D.disk self.old.book.disk).faults ≤ (D.disk self.new.book.disk).faults }
    {
        if is_half_full(&self.book) {
            self.mark = Some(EndMark::Half);
            return Err(HoldFault::Half);
        }
        if self.made >= MOST_MADE {
            return Err(HoldFault::Refused(StageRefusal::OutOfMemory));
        }
        match commit_within(&mut self.book, now, what) {
            Ok(number) => {
                self.made += 1;
                Ok(number)
            }
            Err(CommitFault::Disk) => {
                self.mark = Some(EndMark::Broken);
                Err(HoldFault::Disk)
            }
            Err(CommitFault::Refused(refusal)) => Err(HoldFault::Refused(refusal)),
            Err(CommitFault::Damaged { file: _, at: _ }) => unreachable!(),
        }
    }

    /// Makes all steps durable.
    ///
    /// # Errors
    ///
    /// `Failed`, and the round is marked as broken.
    pub fn flush(&mut self) -> Result<(), Failed>
        requires unmarked { self.old.mark ≡ None }
        ensures opening { self.new.opening ≡ self.old.opening }
        ensures made { self.new.made ≡ self.old.made }
        ensures book { IsSameBook self.old.book self.new.book }
        ensures durable { OnOk result (self.new.book.kept ≡ length self.new.book.steps) }
        ensures unmarked { OnOk result (self.new.mark ≡ None) }
        ensures entry { OnOk result (entries_of R.meaning self.new ≡ entries_of R.meaning self.old) }
        ensures broken { OnErr result (self.new.mark ≡ Some EndMark.Broken) }
        ensures entry_err { OnErr result (entries_of R.meaning self.new ≡ entries_of R.meaning self.old ++ mark_entries (Some EndMark.Broken)) }
        ensures grows { IsPrefix (entries_of R.meaning self.old) (entries_of R.meaning self.new) }
        ensures nothing { waiting_steps self.old.book ≡ [] → self.new.book.disk ≡ self.old.book.disk }
        ensures failed { OnErr result (Rose (D.disk self.old.book.disk).faults (D.disk self.new.book.disk).faults) }
        ensures count { (D.disk self.old.book.disk).faults ≤ (D.disk self.new.book.disk).faults }
    {
        match self.book.flush() {
            Ok(_) => Ok(()),
            Err(FlushFault::Disk) => {
                self.mark = Some(EndMark::Broken);
                Err(Failed)
            }
            Err(FlushFault::Broken) => unreachable!(),
        }
    }

    /// Marks that no further step is made, since an order asked for it.
    pub fn stop(&mut self)
        requires unmarked { self.old.mark ≡ None }
        ensures marked { self.new ≡ record self.old { mark = Some EndMark.Stop } }
        ensures entry { entries_of R.meaning self.new ≡ entries_of R.meaning self.old ++ mark_entries (Some EndMark.Stop) }
        ensures grows { IsPrefix (entries_of R.meaning self.old) (entries_of R.meaning self.new) }
    {
        self.mark = Some(EndMark::Stop);
    }

    /// The book, which went on from the one that the round began with.
    pub fn into_book(self) -> Book<D, R>
        ensures book { result ≡ self.book }
        ensures round { IsRound D.disk R.meaning self.opening self.made result self.mark }
    {
        let Locked {
            opening: _,
            book,
            made: _,
            mark: _,
        } = self;
        book
    }
}
