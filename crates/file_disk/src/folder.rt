//! The folder of a store, and the paths in it.

use crate::lock::TryLock;
use std::alloc::Global;
use std::fs::{OpenFile, OpenOptions};
use std::io;
use std::rt::Files;

/// The path of a file in a folder.
pub(crate) fn path_in(alloc: Global, folder: &str, name: &str) -> io::Result<String> {
    Ok(format!(in alloc; "{folder}/{name}")?)
}

/// The folder that a folder stands in.
pub(crate) fn parent_of(folder: &str) -> &str {
    let folder = folder.trim_end_matches('/');
    match folder.rfind('/') {
        Some(0) => "/",
        Some(at) => &folder[..at],
        None => ".",
    }
}

/// Opens a folder and locks it, if it is there. A path that is none of a folder is refused, and not waited for.
pub(crate) fn lock_folder<R: Files>(
    alloc: Global,
    files: &R,
    folder: &str,
) -> io::Result<Option<R::File>>
where
    R::File: TryLock,
{
    let path = path_in(alloc, folder, ".")?;
    match OpenOptions::new().read(true).open(files, path.as_str()) {
        Ok(open) => {
            open.try_lock()?;
            Ok(Some(open))
        }
        Err(e) if e.kind() == io::ErrorKind::NotFound => Ok(None),
        Err(e) => Err(e),
    }
}

/// Makes the names in a folder durable.
pub(crate) fn sync_folder<R: Files>(files: &R, folder: &str) -> io::Result<()> {
    let open = OpenOptions::new().read(true).open(files, folder)?;
    open.sync_all()
}
