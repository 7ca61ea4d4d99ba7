//! Codes of bundles.
use crate::bundles::bundle_in;
use base_types::{Blob, OutOfMemory};
use config_bundle::{Bundle, BundleBad, bundle_code, bundle_read, is_bundle};
use std::alloc::Global;
use table_lines::{escaped, unescaped};

/// The code of a bundle, and whether it is read as that bundle.
pub fn code(alloc: Global, case: &str) -> Result<String, OutOfMemory> {
    let bundle = bundle_in(alloc, case)?;
    let Some(code) = code_of(alloc, &bundle)? else {
        return Ok("no bundle".to_string(alloc)?);
    };
    let text = escaped(alloc, code.bytes())?;
    let word = again(alloc, &bundle, code.bytes())?;
    Ok(format!(in alloc; "{text}\n{word}")?)
}

/// The length of the code of a bundle, and whether it is read as that bundle.
pub fn code_length(alloc: Global, case: &str) -> Result<String, OutOfMemory> {
    let bundle = bundle_in(alloc, case)?;
    let Some(code) = code_of(alloc, &bundle)? else {
        return Ok("no bundle".to_string(alloc)?);
    };
    let length = code.bytes().len();
    let word = again(alloc, &bundle, code.bytes())?;
    Ok(format!(in alloc; "{length} bytes\n{word}")?)
}

fn code_of(alloc: Global, bundle: &Bundle) -> Result<Option<Blob>, OutOfMemory> {
    if !is_bundle(bundle) {
        return Ok(None);
    }
    Ok(Some(bundle_code(alloc, bundle)?))
}

fn again(alloc: Global, bundle: &Bundle, code: &[u8]) -> Result<&'static str, OutOfMemory> {
    match bundle_read(alloc, code) {
        Ok(found) => Ok(if found == *bundle {
            "read again"
        } else {
            "read otherwise"
        }),
        Err(BundleBad::Bad) => Ok("bad"),
        Err(BundleBad::OutOfMemory) => Err(OutOfMemory),
    }
}

/// How many shorter fronts of a bundle's code are bad, and whether the code with a byte behind it is.
pub fn fronts(alloc: Global, case: &str) -> Result<String, OutOfMemory> {
    let bundle = bundle_in(alloc, case)?;
    let Some(code) = code_of(alloc, &bundle)? else {
        return Ok("no bundle".to_string(alloc)?);
    };
    let bad = bad_fronts(alloc, code.bytes())?;
    let length = code.bytes().len();
    let mut longer = code.copy(alloc)?;
    longer.append(&[0])?;
    let word = word_of(alloc, longer.bytes())?;
    Ok(format!(in alloc; "{bad} of {length} bad, with a byte behind it {word}")?)
}

fn bad_fronts(alloc: Global, code: &[u8]) -> Result<usize, OutOfMemory> {
    let mut bad = 0usize;
    for end in 0..code.len() {
        if word_of(alloc, &code[..end])? == "bad" {
            bad = bad.saturating_add(1);
        }
    }
    Ok(bad)
}

/// Whether bytes are a bundle's code.
pub fn read(alloc: Global, case: &str) -> Result<String, OutOfMemory> {
    let bytes = unescaped(alloc, case)?;
    Ok(word_of(alloc, &bytes)?.to_string(alloc)?)
}

fn word_of(alloc: Global, bytes: &[u8]) -> Result<&'static str, OutOfMemory> {
    match bundle_read(alloc, bytes) {
        Ok(_) => Ok("a bundle"),
        Err(BundleBad::Bad) => Ok("bad"),
        Err(BundleBad::OutOfMemory) => Err(OutOfMemory),
    }
}
