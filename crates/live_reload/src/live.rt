//! Orders of a control that is followed while a pipeline works.
ghost use Rattle.std.specs.Prelude.{◌≡◌, ◌≤◌, ◌<◌, List, ℕ, Some, MatchResult};
ghost use Rattle.edge_traits.specs.Source.{SourceView};
ghost use Rattle.live_reload.specs.Control.{control_in};
ghost use Rattle.live_reload.specs.Lines.{IsNextLine, longest_control};
ghost use Rattle.live_reload.specs.Live.{live_at, Follows, Stays, TakesTurn, Turns, watched_by};

use crate::answer::answer;
use crate::reading::{LONGEST_CONTROL, next_control};
use crate::word::answer_text;
use crate::{Control, Order, OrdersEnd};
use edge_traits::{Failed, Shelf, Sink, Source, write_all};
use feed_reader::ReaderFault;
use std::alloc::Global;

/// How far the lines of control were followed, of which each gives an order. Control, the shelf from which bundles are brought, and the
/// output on which each line is answered are lent to each call.
#[derive(Clone, Copy, Debug)]
pub struct LiveOrders {
    /// The offset in control behind the lines that were taken.
    at: u64,
    /// How many lines were taken.
    taken: u64,
    /// The offset up to which control was read.
    read: u64,
    end: OrdersEnd,
}

// What is given for a line with this order, by what came of printing its answer.
fn given_for(printed: Result<(), Failed>, order: Order) -> (Order, OrdersEnd)
    ensures { MatchResult printed (λ _. (result.0 ≡ order) × (result.1 ≡ OrdersEnd.Open)) (λ _. (result.0 ≡ Order.Failed) × (result.1 ≡ OrdersEnd.Sink)) }
{
    match printed {
        Ok(()) => (order, OrdersEnd::Open),
        Err(Failed) => (Order::Failed, OrdersEnd::Sink),
    }
}

impl LiveOrders {
    /// Orders from the first line of control on.
    pub fn new() -> LiveOrders
        ensures start { result ≡ record { at = 0; taken = 0; read = 0; end = OrdersEnd.Open } }
        ensures follows { (control : SourceView) → Follows control result }
    {
        LiveOrders {
            at: 0,
            taken: 0,
            read: 0,
            end: OrdersEnd::Open,
        }
    }

    /// What came of the last order that was asked for.
    pub fn end(&self) -> OrdersEnd
        ensures { result ≡ self.now.end }
    {
        self.end
    }

    /// Behind so many bytes of control there may be more later, unless as many were read as may be.
    pub fn watched(&self) -> Option<u64>
        ensures { result ≡ watched_by self.now }
    {
        if self.read < LONGEST_CONTROL {
            Some(self.read)
        } else {
            None
        }
    }

    /// The next order: that of the next line of control. `Nothing` where no further line is whole, where a line is bad, and where
    /// its bundle isn't had. `Failed` where control or the output failed.
    ///
    /// Of a line at most 1,024 bytes are held.
    pub fn next<K: Source, H: Shelf, S: Sink>(
        &mut self,
        alloc: Global,
        control: &mut K,
        shelf: &mut H,
        out: &mut S,
    ) -> Order
        requires follows { Follows (K.source control.old) self.old }
        ensures turns { Turns (live_at (K.source control.old) (H.shelf shelf.old) (S.sink out.old) self.old) (live_at (K.source control.new) (H.shelf shelf.new) (S.sink out.new) self.new) result }
        ensures stays { Stays (live_at (K.source control.old) (H.shelf shelf.old) (S.sink out.old) self.old) (live_at (K.source control.new) (H.shelf shelf.new) (S.sink out.new) self.new) }
        ensures follows { Follows (K.source control.new) self.new }
    {
        match next_control(alloc, control, self.at) {
            Ok((asked, upto)) => {
                self.read = upto;
                match asked {
                    Some(asked) => self.take(alloc, shelf, out, asked, upto),
                    None => {
                        self.end = OrdersEnd::AtEnd;
                        Order::Nothing
                    }
                }
            }
            Err(ReaderFault::Failed) => {
                self.end = OrdersEnd::Control;
                Order::Failed
            }
            Err(ReaderFault::OutOfMemory) => {
                self.end = OrdersEnd::Open;
                Order::OutOfMemory
            }
        }
    }

    // Takes a line that asks for this and ends ahead of `upto`, and prints its answer.
    fn take<H: Shelf, S: Sink>(
        &mut self,
        alloc: Global,
        shelf: &mut H,
        out: &mut S,
        asked: Control,
        upto: u64,
    ) -> Order
        requires near { self.old.taken < upto }
        ensures turns { (control : SourceView) → ((content : List ℕ) → control.told ≡ Some content → (line : List ℕ) × IsNextLine content self.old.at line upto × (asked ≡ control_in line)) → Follows control self.old
            → TakesTurn (live_at control (H.shelf shelf.old) (S.sink out.old) self.old) (live_at control (H.shelf shelf.new) (S.sink out.new) self.new) result }
        ensures stays { (control : SourceView) → Stays (live_at control (H.shelf shelf.old) (S.sink out.old) self.old) (live_at control (H.shelf shelf.new) (S.sink out.new) self.new) }
        ensures follows { (control : SourceView) → ((content : List ℕ) → control.told ≡ Some content → (line : List ℕ) × IsNextLine content self.old.at line upto × (asked ≡ control_in line)) → upto ≤ longest_control
            → Follows control self.old → Follows control self.new }
    {
        let Some((word, order)) = answer(alloc, shelf, asked) else {
            self.end = OrdersEnd::Open;
            return Order::OutOfMemory;
        };
        let Ok(text) = answer_text(alloc, self.taken + 1, word) else {
            self.end = OrdersEnd::Open;
            return Order::OutOfMemory;
        };
        self.at = upto;
        self.taken += 1;
        let printed = write_all(out, text.as_str().as_bytes());
        let (order, end) = given_for(printed, order);
        self.end = end;
        order
    }
}
