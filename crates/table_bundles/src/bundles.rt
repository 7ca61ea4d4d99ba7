//! Bundles of cases, and what is fetched of shelves.
use crate::texts::{blob_of, push_utf8, text_of};
use base_types::{Blob, NamedList, NumberList, OutOfMemory, Text};
use bundle_fetch::{BundleFault, bundle_of};
use config_bundle::Bundle;
use edge_memory::MemShelf;
use runtime_text::named_files;
use std::alloc::Global;
use table_lines::push_escaped;

/// The bundle of a case.
pub fn bundle_in(alloc: Global, case: &str) -> Result<Bundle, OutOfMemory> {
    let (runtime, files) = case.split_once(" | ").unwrap_or((case, ""));
    Ok(Bundle {
        runtime: blob_of(alloc, runtime)?,
        files: files_in(alloc, files)?,
    })
}

fn files_in(alloc: Global, case: &str) -> Result<NamedList, OutOfMemory> {
    let mut files = Vec::new(alloc);
    if !case.is_empty() {
        for part in case.split(" | ") {
            files.push(file_in(alloc, part)?)?;
        }
    }
    Ok(NamedList::from(files))
}

fn file_in(alloc: Global, part: &str) -> Result<(Text, Blob), OutOfMemory> {
    let (name, content) = part.split_once('=').unwrap_or((part, ""));
    Ok((text_of(alloc, name)?, blob_of(alloc, content)?))
}

/// The names of the files that a runtime text names.
pub fn named(alloc: Global, case: &str) -> Result<String, OutOfMemory> {
    let runtime = blob_of(alloc, case)?;
    let mut out = String::new(alloc);
    for name in named_files(alloc, runtime.bytes())?.as_slice() {
        out.push_str(name.as_str())?;
        out.push_str("\n")?;
    }
    if out.is_empty() {
        out.push_str("none")?;
    }
    Ok(out)
}

/// What is fetched under the name `r.json` of a shelf with these files.
pub fn fetched(alloc: Global, case: &str) -> Result<String, OutOfMemory> {
    let files = files_in(alloc, case)?;
    let mut shelf = MemShelf::new(alloc, NumberList::new(alloc));
    for (name, content) in files.as_slice() {
        shelf.put(alloc, name, content, NumberList::new(alloc))?;
    }
    let name = text_of(alloc, "r.json")?;
    fetch_text(alloc, &bundle_of(alloc, &mut shelf, &name))
}

fn fetch_text(alloc: Global, fetched: &Result<Bundle, BundleFault>) -> Result<String, OutOfMemory> {
    match fetched {
        Ok(bundle) => bundle_text(alloc, bundle),
        Err(BundleFault::Absent { name }) => Ok(format!(in alloc; "absent {}", name.as_str())?),
        Err(BundleFault::Failed { name }) => Ok(format!(in alloc; "failed {}", name.as_str())?),
        Err(BundleFault::OutOfMemory) => Err(OutOfMemory),
    }
}

fn bundle_text(alloc: Global, bundle: &Bundle) -> Result<String, OutOfMemory> {
    let mut out = "runtime ".to_string(alloc)?;
    push_escaped(&mut out, bundle.runtime.bytes())?;
    for (name, content) in bundle.files.as_slice() {
        out.push_str("\nfile ")?;
        push_utf8(&mut out, name.bytes())?;
        out.push_str("=")?;
        push_escaped(&mut out, content.bytes())?;
    }
    Ok(out)
}
