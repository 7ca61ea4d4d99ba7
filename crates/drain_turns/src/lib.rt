//! One thread's turns: whose turn it is, what it comes to, and the loop that goes on until nothing is left to do.
#![tactic(auto)]

mod collector;
mod end;
mod laws;
mod moves;
mod turn;

pub use collector::{is_backed_up, position_of};
pub use end::TurnsEnd;
pub use laws::{
    all_asked_are_made, feeds_stay_readable, free_calls_end_idle, nobody_only_if_halted, one_drain,
    one_step, one_turn, opened_feeds_are_readable, some_step,
};
pub use moves::{actor_move, found_move, given_move, take_move, work_move};
pub use turn::Turn;
