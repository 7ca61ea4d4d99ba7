//! Files of cases, in the folder where the program runs.
use std::alloc::Global;
use std::rt::Files;
use std::{fs, io};
use table_lines::push_escaped;

/// The case in which each `@{NAME}` stands for what that file has, with escapes.
pub fn with_files(rt: &(impl Files + Alloc<A = Global>), case: &str) -> io::Result<String> {
    let mut out = String::new(rt.alloc());
    for (i, part) in case.split("@{").enumerate() {
        if i == 0 {
            out.push_str(part)?;
        } else {
            push_file(rt, &mut out, part)?;
        }
    }
    Ok(out)
}

// Appends what stands for a text behind `@{`.
fn push_file(
    rt: &(impl Files + Alloc<A = Global>),
    out: &mut String,
    text: &str,
) -> io::Result<()> {
    let Some((name, behind)) = text.split_once('}') else {
        out.push_str("@{")?;
        out.push_str(text)?;
        return Ok(());
    };
    push_escaped(out, &fs::read(rt, name)?)?;
    out.push_str(behind)?;
    Ok(())
}
