//! Long texts, written short.
use std::alloc::{AllocError, Global};

/// The text in which each `%[N PART]%` stands for N times PART.
pub fn repeated(alloc: Global, text: &str) -> Result<String, AllocError> {
    let mut out = String::new(alloc);
    for (i, part) in text.split("%[").enumerate() {
        if i == 0 {
            out.push_str(part)?;
        } else {
            push_repeat(&mut out, part)?;
        }
    }
    Ok(out)
}

// Appends what stands for a text behind `%[`.
fn push_repeat(out: &mut String, text: &str) -> Result<(), AllocError> {
    let Some((times, part, behind)) = repeat_in(text) else {
        out.push_str("%[")?;
        out.push_str(text)?;
        return Ok(());
    };
    for _ in 0..times {
        out.push_str(part)?;
    }
    out.push_str(behind)?;
    Ok(())
}

// The number, the part, and what stands behind it.
fn repeat_in(text: &str) -> Option<(u32, &str, &str)> {
    let (repeat, behind) = text.split_once("]%")?;
    let (times, part) = repeat.split_once(' ')?;
    Some((times.parse::<u32>().ok()?, part, behind))
}
