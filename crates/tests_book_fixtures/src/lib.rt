//! Books for tests: their calls over any disk and any rules, with contracts that say only what tests need, so that no proof
//! of a test looks into those of the book or of the rules; disks in memory that fail and crash; and a plain recount of what a
//! store's files hold.
#![tactic(auto)]

mod answer;
mod books;
mod damage;
mod disks;
mod opening;
mod recount;
mod rows;
mod steps;

pub use answer::Answer;
pub use books::{
    STEP_BYTES, bring_up, create_fault, created, flush, latest, new_store, opened, stage, start,
    state_code, waiting_codes,
};
pub use damage::{changed, first_bytes, frames, front};
pub use disks::{
    CHOICES, KEPT, LONGEST, LONGEST_CLOSED, SHORTEST, copy_of, crashed, fail_at, mend, put_file,
    stop_after,
};
pub use opening::{Seen, complete, reopen};
pub use recount::{Body, Found, GENERATION, OUT, ROOT, Records, Stored, found_in, records_of};
pub use rows::row_text;
pub use steps::{front_codes, stored_in};
