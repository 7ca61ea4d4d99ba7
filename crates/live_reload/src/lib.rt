//! What somebody asks of a pipeline that runs, a line each in the file `control`.
#![tactic(auto)]

mod answer;
mod control;
mod end;
mod live;
mod order;
mod reading;
mod word;

pub use control::{Control, read_control};
pub use end::OrdersEnd;
pub use live::LiveOrders;
pub use order::Order;
pub use word::Word;
