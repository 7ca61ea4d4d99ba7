ghost use Rattle.std.specs.Prelude.{◌≡◌, ◌<◌, ◌++◌, ◌^◌, length, IfOk, OnOk};
ghost use Rattle.std.specs.List.{flat_map};
ghost use Rattle.config_bundle.specs.Bundle.{bundle_code, file_code, IsBundle};

use crate::Bundle;
use crate::file_name::put_name;
use base_types::{Blob, OutOfMemory, Text, put_u32};
use std::alloc::Global;
use stored_types::Coded;

fn put_file(to: &mut Blob, file: &(Text, Blob)) -> Result<(), OutOfMemory>
    ensures { OnOk result (to.new ≡ to.old ++ file_code file.now) }
{
    put_name(to, &file.0)?;
    file.1.put(to)
}

fn put_files(to: &mut Blob, files: &[(Text, Blob)]) -> Result<(), OutOfMemory>
    ensures { OnOk result (to.new ≡ to.old ++ flat_map file_code files.now) }
{
    'files: for file in files {
        put_file(to, file)?;
    }
    Ok(())
}

/// The code of a bundle.
pub fn bundle_code(alloc: Global, bundle: &Bundle) -> Result<Blob, OutOfMemory>
    requires { IsBundle bundle.now }
    ensures { IfOk result (λ code. code ≡ bundle_code bundle.now) }
{
    let mut code = Blob::from(Vec::new(alloc));
    bundle.runtime.put(&mut code)?;
    put_u32(&mut code, bundle.files.len() as u32)?;
    put_files(&mut code, bundle.files.as_slice())?;
    Ok(code)
}
