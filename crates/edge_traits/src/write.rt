ghost use Rattle.std.specs.Prelude.{◌≤◌, OnOk, OnErr, IsErr};
ghost use Rattle.edge_traits.specs.Count.{Rose};
ghost use Rattle.edge_traits.specs.Output.{TookFront};
ghost use Rattle.edge_traits.specs.Sink.{Took};

use crate::{Failed, Sink};

/// Writes all of these bytes. After a failure the sink has got a front of them.
pub fn write_all<S: Sink>(out: &mut S, bytes: &[u8]) -> Result<(), Failed>
    ensures ok { OnOk result (Took (S.sink out.old) (S.sink out.new) bytes.now) }
    ensures err { OnErr result (TookFront (S.sink out.old) (S.sink out.new) bytes.now) }
    ensures failed { IsErr result → Rose (S.sink out.old).faults (S.sink out.new).faults }
    ensures count { (S.sink out.old).faults ≤ (S.sink out.new).faults }
{
    let mut rest = bytes;
    'pieces: while !rest.is_empty() {
        let n = out.write(rest)?;
        rest = &rest[n..];
    }
    Ok(())
}
