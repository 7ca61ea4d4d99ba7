//! What is stored, and its codes.
#![tactic(auto)]

mod code_fault;
mod coded;
mod fields;
mod hand;
mod mark;
mod message;
mod queue;

pub use code_fault::CodeFault;
pub use coded::{Coded, codes_len, copies, copy_all, put_all};
pub use hand::{Hand, HandList};
pub use mark::{Mark, MarkList};
pub use message::{Dump, DumpList};
pub use queue::{MsgList, Queue, WaitingList};
