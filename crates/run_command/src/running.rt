ghost use Rattle.std.specs.Prelude.{◌≡◌, ◌≢◌, ◌≤◌, ℕ, List, true, false, Some, IsSome, Ok, IfErr, IsErrOf};
ghost use Rattle.bot_rules.specs.Intel.{intel};
ghost use Rattle.edge_traits.specs.Count.{Rose};
ghost use Rattle.edge_traits.specs.Disk.{Image};
ghost use Rattle.edge_traits.specs.Shelf.{count_on};
ghost use Rattle.step_code.specs.declared.base.Base.{Base};
ghost use Rattle.journal_book.specs.Alone.{LeavesAlone};
ghost use Rattle.book_runs.specs.Calls.{IsEarlierIn};
ghost use Rattle.store_commands.specs.Ends.{most_step_bytes};
ghost use Rattle.turn_order.specs.Turn.{collectors};
ghost use Rattle.drain_turns.specs.declared.end.TurnsEnd.{TurnsEnd as Last};
ghost use Rattle.drain_loop.specs.Calls.{outside};
ghost use Rattle.drain_loop.specs.Feeds.{FailedBeyond};
ghost use Rattle.drain_command.specs.Drained.{IsToldEnd, MayEndDrain};
ghost use Rattle.run_command.specs.Said.{run_ended, IsRun};

use crate::turning::run_turns;
use drain_command::{Asked, ended, has_memory};
use drain_turns::TurnsEnd;
use edge_traits::{Clock, Disk, Gate, Shelf, Sink, Source};
use history_laws::each_message_stands_in_one_place;
use journal_book::Book;
use live_reload::{LiveOrders, OrdersEnd};
use std::alloc::Global;
use std::sync::Wait;
use std::thread::Threads;
use step_code::Rules;
use store_commands::{STEP_BYTES, StoreEnd, end_of, finish};

/// What came of a run.
#[derive(Debug, Drop)]
pub struct Ran<D> {
    /// Why its turns ended: also `Left` where control gave `stop`, or failed.
    pub end: Result<TurnsEnd, StoreEnd>,
    /// What came of the last order that was asked of control.
    pub orders: OrdersEnd,
    /// How many steps were made.
    pub steps: u64,
    pub disk: D,
}

/// Opens a store, and lets a worker on a thread of its own work for each instance of a bot and for each collector, until nothing is left to
/// do, or another cause of `TurnsEnd` comes. Where no thread can be made they work one after the other. Their steps are committed one by one
/// under one lock. Control is followed meanwhile: a line of it ends the round of the workers, is answered, and its order is carried out
/// before the next round. A run that stays goes on where nothing is left to do. The steps are made durable, the outputs are completed, and
/// the summary of the state is printed. The disk comes back.
///
/// `workers_rules` means what `rules` means; the workers are lent it.
///
/// # Errors
///
/// As of `drain`: `Memory` where there was none: no summary is printed, and where the store was opened its steps are durable. `Disk` where
/// the disk failed. `Sink` where the output failed: the steps are durable, and the outputs are complete. `Store` with 0 bytes where there is
/// no store. `Damaged` where it is damaged.
pub fn run<T, D, R, K, H, C, G, S>(
    rt: &T,
    alloc: Global,
    disk: D,
    rules: R,
    workers_rules: &R,
    control: &mut K,
    shelf: &mut H,
    clock: &C,
    gate: &G,
    stay: bool,
    asked: Asked,
    out: &mut S,
) -> Ran<D>
where
    T: Threads + Wait + Sync,
    D: Disk + Send,
    R: Rules + Send + Sync,
    R::Plan: Send,
    R::Work: Send,
    K: Source,
    H: Shelf,
    H::Src: Send,
    C: Clock + Sync,
    G: Gate + Sync,
    S: Sink,
    requires meaning { R.meaning ≡ intel }
    requires loads { (bundle : List ℕ) → asked.opening.bundle ≡ Some bundle → IsSome (R.meaning.facts bundle) }

    // The lines of control that were taken, in order, with their answers and the orders that they give. Where the disk tells what it
    // holds: the steps that were made, those of the opening, and then the workers' and those of the orders, and why there are no more, a
    // feed that failed only beyond the retries of the state that they led to; what a crash leaves of the store's history at any moment;
    // and what is printed. Or what the store is refused for.
    ensures ran { IsRun D.disk (K.source control.old).told (outside R.meaning (H.shelf shelf.old) (C.told clock.now) most_step_bytes) (H.shelf shelf.new) asked result.steps result.orders (D.disk disk) (D.disk result.disk) result.end (S.sink out.old) (S.sink out.new) }

    // The files that are none of its own are left alone, where the disk tells what it holds.
    ensures others { (files : Image) → (D.disk disk).told ≡ Some files → LeavesAlone (D.disk disk) (D.disk result.disk) (IsEarlierIn files) }

    // The turns that are told ended by a cause of theirs, and no other end of a store comes than these.
    ensures plain { (why : Last) → result.end ≡ Ok why → IsToldEnd why }
    ensures ends { IfErr result.end MayEndDrain }
    ensures stays { stay ≡ true → result.end ≢ Ok Last.Idle }

    // The outside failed, as its counts show: a feed more often than its collector tries again.
    ensures disk { IsErrOf result.end StoreEnd.Disk → Rose (D.disk disk).faults (D.disk result.disk).faults }
    ensures sink { IsErrOf result.end StoreEnd.Sink → Rose (S.sink out.old).faults (S.sink out.new).faults }
    ensures control { result.orders ≡ OrdersEnd.Control → Rose (K.source control.old).faults (K.source control.new).faults }
    ensures failed { (name : List ℕ) → result.end ≡ Ok (Last.Failed name) → (s : Base) × FailedBeyond (collectors R.meaning s) (H.shelf shelf.old) (H.shelf shelf.new) name }
    ensures told { (H.shelf shelf.new).told ≡ (H.shelf shelf.old).told }
    ensures counts { (name : List ℕ) → count_on (H.shelf shelf.old) name ≤ count_on (H.shelf shelf.new) name }
    ensures control_count { (K.source control.old).faults ≤ (K.source control.new).faults }
    ensures disk_count { (D.disk disk).faults ≤ (D.disk result.disk).faults }
    ensures sink_count { (S.sink out.old).faults ≤ (S.sink out.new).faults }
{
    // Nothing is lost and nothing is invented in a legal history.
    each_message_stands_in_one_place::<R>();
    let mut live = LiveOrders::new();
    match Book::reopen(alloc, disk, rules, STEP_BYTES) {
        Ok(book) => {
            let before = book.state().steps();
            let (book, last) = run_turns(
                rt,
                alloc,
                workers_rules,
                book,
                &mut live,
                control,
                shelf,
                out,
                clock,
                gate,
                stay,
                asked,
            );
            let orders = live.end();
            let steps = book.state().steps().saturating_sub(before);
            match last {
                TurnsEnd::Disk => Ran {
                    end: Err(StoreEnd::Disk),
                    orders,
                    steps,
                    disk: book.into_disk(),
                },
                TurnsEnd::Damaged { file, at } => Ran {
                    end: Err(StoreEnd::Damaged { file, at }),
                    orders,
                    steps,
                    disk: book.into_disk(),
                },
                _ => {
                    let mut book = book;
                    let is_said = is_to_say(&last, orders);
                    let end = finish(alloc, &mut book, is_said, out);
                    Ran {
                        end: run_ended(orders, end, is_said, last),
                        orders,
                        steps,
                        disk: book.into_disk(),
                    }
                }
            }
        }
        Err((fault, disk)) => Ran {
            end: Err(end_of(fault)),
            orders: live.end(),
            steps: 0,
            disk,
        },
    }
}

// Whether the summary is printed behind turns that ended so: not where there was no memory, or where the output failed at an answer.
fn is_to_say(last: &TurnsEnd, orders: OrdersEnd) -> bool
    ensures memory { last.now ≡ TurnsEnd.Memory → result ≡ false }
    ensures sink { orders ≡ OrdersEnd.Sink → result ≡ false }
{
    has_memory(last) && orders != OrdersEnd::Sink
}

// How a run ends whose book was finished so, with its summary or without, behind these turns and this end of its orders.
fn run_ended(
    orders: OrdersEnd,
    end: StoreEnd,
    is_said: bool,
    last: TurnsEnd,
) -> Result<TurnsEnd, StoreEnd>
    ensures { result ≡ run_ended orders end is_said last }
{
    match (orders, end) {
        (OrdersEnd::Sink, StoreEnd::Done) => Err(StoreEnd::Sink),
        (_, end) => ended(end, is_said, last),
    }
}
