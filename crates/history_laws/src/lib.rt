//! What holds of every legal history of a new store, and what a reload leaves.
#![tactic(auto)]

mod laws;

pub use laws::{
    a_reload_gives_back_what_is_stranded, each_message_stands_in_one_place,
    legal_histories_leave_sound_states, what_may_be_taken_may_be_replayed,
};
