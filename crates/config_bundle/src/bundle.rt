ghost use Rattle.std.specs.Prelude.{◌↔◌, IsTrue};
ghost use Rattle.std.specs.List.{AllByRecursion};
ghost use Rattle.config_bundle.specs.Bundle.{IsBundle, IsFile};

use crate::order::names_rise;
use base_types::{Blob, NamedList, Text};

/// The runtime text of a configuration, and the files that it names.
#[derive(Debug, Drop, PartialEq)]
pub struct Bundle {
    pub runtime: Blob,
    pub files: NamedList,
}

// The lengths that can't be written: of a name, and of a blob or a list.
const NAME_LIMIT: usize = 0x1_0000;

const BLOB_LIMIT: usize = 0x1_0000_0000;

// Whether a file has a code.
fn is_file(file: &(Text, Blob)) -> bool
    ensures { IsTrue result ↔ IsFile file.now }
{
    file.0.as_str().as_bytes().len() < NAME_LIMIT && file.1.bytes().len() < BLOB_LIMIT
}

fn are_files(files: &[(Text, Blob)]) -> bool
    ensures { IsTrue result ↔ AllByRecursion IsFile files.now }
{
    'files: for file in files {
        if !is_file(file) {
            return false;
        }
    }
    true
}

/// Whether a bundle has a code: the names of its files rise in byte order, and each length fits its bytes in the code.
pub fn is_bundle(bundle: &Bundle) -> bool
    ensures { IsTrue result ↔ IsBundle bundle.now }
{
    let files = bundle.files.as_slice();
    bundle.runtime.bytes().len() < BLOB_LIMIT
        && files.len() < BLOB_LIMIT
        && are_files(files)
        && names_rise(files)
}
