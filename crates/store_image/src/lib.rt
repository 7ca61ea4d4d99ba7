//! What the files of a store stand for: the definitions, and laws on them; and what sealing lines of outputs doesn't change of it.
#![tactic(auto)]

mod heading;
mod laws;
mod sealing;

pub use heading::{FIRST_FORMAT, ROOT, WRITTEN_FORMAT, heading_of, root_heading};
pub use laws::{
    a_store_is_damaged_at_one_place, a_store_opens_or_is_damaged, what_is_held_is_one,
    what_is_stored_is_one, what_opens_is_whole, what_stands_whole_is_held,
};
pub use sealing::{
    sealed_histories, sealed_steps, sealing_all_is_sealing, sealing_is_kept,
    sealing_keeps_what_is_spent, what_is_renewed_stands,
};
