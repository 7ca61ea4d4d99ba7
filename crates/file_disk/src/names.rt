ghost use Rattle.std.specs.Prelude.{◌≡◌, IfOk, MatchOption, None, Some, IfSome, string_bytes};
ghost use Rattle.file_disk.specs.Files.{file_name};

use std::alloc::{AllocError, Global};

/// The name of a store's file in its folder. Where there is no such file, none.
pub(crate) fn file_name(alloc: Global, file: u64) -> Result<Option<String>, AllocError>
    ensures { IfOk result (λ name. MatchOption name (file_name file ≡ None) (λ text. file_name file ≡ Some (string_bytes text))) }
{
    if file == 0 {
        return Ok(Some(String::from_str(alloc, "root")?));
    }
    if file < 16 {
        return Ok(None);
    }
    if file % 2 == 0 {
        Ok(Some(format!(in alloc; "out-{}", (file - 16) / 2)?))
    } else {
        Ok(Some(format!(in alloc; "gen-{}", (file - 17) / 2)?))
    }
}
