//! The program: the tool over the system that it runs on.
#![tactic(auto)]

use std::fs;
use std::io::IsTerminal;
use std::process::ExitCode;
use system_run::run_threaded;

// A file that is there on any system, and of which nothing is read.
const NO_FILE: &str = "/dev/null";

// Where standard input, output or error is closed, the system gives its number to the next file that is opened. These three are
// opened first, for reading alone, so that no file of a store gets such a number: what is printed there fails then.
fn main(rt: HostRuntime) -> ExitCode {
    let _first = fs::open(&rt, NO_FILE);
    let _second = fs::open(&rt, NO_FILE);
    let _third = fs::open(&rt, NO_FILE);
    let is_terminal = rt.stderr().is_terminal();
    ExitCode::from(run_threaded(&rt, is_terminal))
}
