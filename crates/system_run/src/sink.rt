ghost use Rattle.std.specs.Prelude.{◌≡◌};

use edge_traits::{Failed, Sink};
use std::io::Write;

/// A writer as a sink, as standard output. It tells what it has taken where the writer tells what it holds.
#[derive(Drop)]
pub struct WriterSink<W> {
    writer: W,
    faults: u64,
}

impl<W: Write> WriterSink<W> {
    pub fn new(writer: W) -> Self
        ensures { ⟦<WriterSink<W> as Sink>⟧.sink result ≡ record { told = W.contents writer; faults = 0 } }
    {
        WriterSink { writer, faults: 0 }
    }
}

impl<W: Write> Sink for WriterSink<W> {
    ghost sink = { λ s. record { told = W.contents s.writer; faults = s.faults } };

    fn write(&mut self, bytes: &[u8]) -> Result<usize, Failed> {
        match self.writer.write(bytes) {
            Ok(n) if n > 0 || bytes.is_empty() => Ok(n),
            _ => {
                self.faults = self.faults.saturating_add(1);
                Err(Failed)
            }
        }
    }
}
