//! The tool over a system: what its command line asks for, and adapters over files, standard output and the clock.
#![tactic(auto)]

mod clock;
mod command_line;
mod control;
mod counts;
mod gate;
mod progress;
mod shelf;
mod sink;
mod threaded;
mod watched;

pub use clock::SystemClock;
pub use command_line::run;
pub use control::ControlFile;
pub use gate::SystemGate;
pub use progress::Progress;
pub use shelf::FileShelf;
pub use sink::WriterSink;
pub use threaded::run_threaded;
pub use watched::Watched;
