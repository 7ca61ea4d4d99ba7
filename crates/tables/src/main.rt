//! Tests whose cases are lines of data: standard input names tables, a line each. A table is a file of cases, and below each case, behind
//! four blanks, stand the lines that are to be answered. Empty lines and those that begin with `#` are headings. Prints each case that
//! is answered otherwise with what came, and behind each table how much there was to answer.
#![tactic(auto)]

mod answers;
mod progress;

use answers::Answers;
use progress::Progress;
use std::{fs, io};

/// What stands in front of a line that is to be answered.
const INDENT: &str = "    ";

fn main(rt: HostRuntime) -> io::Result<()> {
    let mut answers = Answers::new(rt.alloc());
    check_all(&rt, &mut answers)
}

fn check_all(rt: &HostRuntime, answers: &mut Answers) -> io::Result<()> {
    for name in rt.lines(rt.alloc()) {
        check(rt, answers, name?.as_str())?;
    }
    Ok(())
}

fn check(rt: &HostRuntime, answers: &mut Answers, table: &str) -> io::Result<()> {
    let text = fs::read_to_string(rt, table)?;
    let mut progress = Progress::new(rt.alloc());
    for line in text.lines() {
        match line.strip_prefix(INDENT) {
            Some(wanted) => progress.want(wanted)?,
            None => {
                check_case(rt, answers, table, &progress)?;
                progress.begin(line)?;
            }
        }
    }
    check_case(rt, answers, table, &progress)?;
    let cases = progress.cases();
    let lines = progress.lines();
    println!(rt; "{table}: {cases} cases, {lines} lines to answer")?;
    Ok(())
}

// Prints the case where it is answered otherwise.
fn check_case(
    rt: &HostRuntime,
    answers: &mut Answers,
    table: &str,
    progress: &Progress,
) -> io::Result<()> {
    let answer = answers.answer(rt, table, progress.case())?;
    let found = progress::in_lines(rt.alloc(), answer.as_str())?;
    if found.as_str() != progress.wanted() {
        println!(rt; "{table}: {}", progress.case())?;
        for line in found.lines() {
            println!(rt; "{INDENT}{line}")?;
        }
    }
    Ok(())
}
