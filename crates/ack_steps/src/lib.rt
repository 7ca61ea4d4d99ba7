//! The core of the pipeline: the steps that change its state.
#![tactic(auto)]

mod acts;
mod content;
mod done;
mod failing;
mod held;
mod pipeline_core;
mod reads;
mod refusal;
mod reload;

pub use pipeline_core::{Core, CoreFault};
pub use reads::OutputLook;
