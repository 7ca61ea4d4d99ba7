ghost use Rattle.std.specs.Prelude.{◌<◌, ◌≤◌, [], length, take, IfOk, OnErr, IsErr};
ghost use Rattle.edge_traits.specs.Count.{Rose};
ghost use Rattle.edge_traits.specs.Sink.{SinkView, Took};

use crate::Failed;

/// Where bytes are written to, as standard output.
pub trait Sink {
    ghost sink: { Self → SinkView };

    /// Takes a front of `bytes`, at least one where there is one, and answers how many.
    fn write(&mut self, bytes: &[u8]) -> Result<usize, Failed>
        ensures within { IfOk result (λ n. n ≤ length bytes.now) }
        ensures progress { 0 < length bytes.now → IfOk result (λ n. 0 < n) }
        ensures taken { IfOk result (λ n. Took (sink self.old) (sink self.new) (take n bytes.now)) }
        ensures refused { OnErr result (Took (sink self.old) (sink self.new) []) }
        ensures failed { IsErr result → Rose (sink self.old).faults (sink self.new).faults }
        ensures count { (sink self.old).faults ≤ (sink self.new).faults };
}
