//! Files of records that survive a crash at any moment: a record counts once the gate byte before it is open.
#![tactic(auto)]

mod durable;
mod header;
mod journal;
mod laws;
mod reading;

pub use header::{FRAME, HEADER, Heading};
pub use journal::{AppendFault, Journal, JournalFault};
pub use laws::{
    a_file_has_bodies_or_damage, bodies_are_one, damage_is_at_one_place, damaged_has_no_bodies,
};
pub use reading::{next_record, read_bodies, read_records};
