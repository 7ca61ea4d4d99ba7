ghost use Rattle.std.specs.Prelude.{◌≡◌, ◌==◌, length, IfOk};
ghost use Rattle.stored_types.specs.Code.{framed_at, list_at};
ghost use Rattle.stored_types.specs.Coded.{Gives, both};
ghost use Rattle.std.specs.Int.{w32};
ghost use Rattle.config_bundle.specs.Bundle.{bundle_in, file_at};
ghost use Rattle.config_bundle.specs.Reading.{IsReadAs};

use crate::file_name::FileName;
use crate::order::names_rise;
use crate::{Bundle, BundleBad};
use base_types::{Blob, ListOf, NamedList, OutOfMemory};
use std::alloc::Global;
use stored_types::{CodeFault, Coded};

// The files with their names as texts.
fn with_texts(alloc: Global, files: ListOf<(FileName, Blob)>) -> Result<NamedList, OutOfMemory>
    ensures { IfOk result (λ named. named ≡ files) }
{
    let mut named = Vec::with_capacity(alloc, files.len())?;
    'files: for (name, content) in files.into_vec() {
        named.push((name.into_text(), content))?;
    }
    Ok(NamedList::from(named))
}

// A runtime text and files, and what stands behind them.
fn parts_of(alloc: Global, bytes: &[u8]) -> Result<((Blob, NamedList), &[u8]), CodeFault>
    ensures { Gives (λ x. (x.0, x.1.now)) result (both (framed_at w32) (list_at file_at) bytes.now) }
{
    let (runtime, rest) = Blob::take(alloc, bytes)?;
    let (files, rest) = ListOf::<(FileName, Blob)>::take(alloc, rest)?;
    Ok(((runtime, with_texts(alloc, files)?), rest))
}

/// The bundle whose code the bytes are; `Bad` exactly where they are no bundle's code.
pub fn bundle_read(alloc: Global, bytes: &[u8]) -> Result<Bundle, BundleBad>
    ensures { IsReadAs (bundle_in bytes.now) result }
{
    let ((runtime, files), rest) = parts_of(alloc, bytes)?;
    if !rest.is_empty() {
        return Err(BundleBad::Bad);
    }
    if !names_rise(files.as_slice()) {
        return Err(BundleBad::Bad);
    }
    Ok(Bundle { runtime, files })
}
