//! Bundles from a shelf: a runtime text, and the files that it names.
#![tactic(auto)]

mod fault;
mod fetching;
mod front;

pub use fault::BundleFault;
pub use fetching::bundle_of;
