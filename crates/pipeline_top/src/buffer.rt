ghost use Rattle.std.specs.Prelude.{◌≡◌, ◌<◌, ◌≤◌, ℕ, List, [], ◌∷◌, ◌++◌, length, IfErr, OnOk, OnErr, IsErr};
ghost use Rattle.edge_traits.specs.Count.{Rose};
ghost use Rattle.edge_traits.specs.Sink.{Took};
ghost use Rattle.event_model.specs.Lenient.{IsFaultOf};
ghost use Rattle.event_text.specs.Lenient.{lenient, PutsText};
ghost use Rattle.edge_traits.specs.Output.{TookFront, Moved};

use base_types::OutOfMemory;
use edge_traits::{Failed, Sink, write_all};
use event_json::Cleaner;
use event_model::ReadFault;
use std::alloc::Global;
use std::marker::Model;

// From this length on, in bytes, what is gathered is written.
const FULL: usize = 65536;

/// Output that is gathered, so that a sink gets few and long writes. Contracts see its bytes.
#[derive(Drop)]
pub struct Buffer {
    bytes: Vec<u8>,
}

impl Model for Buffer {
    ghost Value = { List ℕ };

    ghost view = { λ b. b.bytes.items };
}

impl Buffer {
    /// The empty buffer. It takes no memory.
    pub fn new(alloc: Global) -> Self
        ensures { result ≡ [] }
    {
        Buffer {
            bytes: Vec::new(alloc),
        }
    }

    /// Puts the text of the message that a line is read as behind what is there, if it is read as one.
    pub fn put_clean(
        &mut self,
        alloc: Global,
        cleaner: &mut Cleaner,
        line: &[u8],
    ) -> Result<(), ReadFault>
        ensures text { OnOk result (PutsText (lenient line.now) self.old self.new) }
        ensures fault { IfErr result (IsFaultOf (lenient line.now)) }
        ensures same { OnErr result (self.new ≡ self.old) }
    {
        cleaner.push_clean(alloc, line, &mut self.bytes)
    }

    /// Ends a line.
    pub fn end_line(&mut self) -> Result<(), OutOfMemory>
        ensures { OnOk result (self.new ≡ self.old ++ 10 ∷ []) }
    {
        self.bytes.push(b'\n')?;
        Ok(())
    }

    /// Writes all that is there, and is empty then. After a failure the sink has got a front of it.
    pub fn flush<S: Sink>(&mut self, out: &mut S) -> Result<(), Failed>
        ensures ok { OnOk result (Took (S.sink out.old) (S.sink out.new) self.old × (self.new ≡ [])) }
        ensures err { OnErr result (TookFront (S.sink out.old) (S.sink out.new) self.old) }
        ensures failed { IsErr result → Rose (S.sink out.old).faults (S.sink out.new).faults }
        ensures count { (S.sink out.old).faults ≤ (S.sink out.new).faults }
    {
        write_all(out, &self.bytes)?;
        self.bytes.clear();
        Ok(())
    }

    /// Writes all that is there if it is much, so that little is there. After a failure the sink has got a front of it.
    pub fn flush_full<S: Sink>(&mut self, out: &mut S) -> Result<(), Failed>
        ensures ok { OnOk result (Moved (S.sink out.old) (S.sink out.new) self.old self.new) }
        ensures small { OnOk result (length self.new < FULL) }
        ensures err { OnErr result (TookFront (S.sink out.old) (S.sink out.new) self.old) }
        ensures failed { IsErr result → Rose (S.sink out.old).faults (S.sink out.new).faults }
        ensures count { (S.sink out.old).faults ≤ (S.sink out.new).faults }
    {
        if self.bytes.len() < FULL {
            Ok(())
        } else {
            self.flush(out)
        }
    }
}
