//! Bundles: the runtime text of a configuration, the files that it names, and the code of both.
#![tactic(auto)]

mod bundle;
mod fault;
mod file_name;
pub mod laws;
mod limits;
mod order;
mod reading;
mod writing;

pub use bundle::{Bundle, is_bundle};
pub use fault::BundleBad;
pub use limits::{LONGEST_FILE, LONGEST_RUNTIME};
pub use reading::bundle_read;
pub use writing::bundle_code;
