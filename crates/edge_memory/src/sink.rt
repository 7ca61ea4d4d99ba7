ghost use Rattle.std.specs.Prelude.{◌≡◌, ◌<◌, ◌≤◌, ◌||◌, ◌&&◌, [], length, take, not, is_err, Some, IfOk, OnErr, IsErr, IsTrue, false};
ghost use Rattle.edge_traits.specs.Count.{Rose, count_sum};
ghost use Rattle.edge_traits.specs.Sink.{Took};

use crate::calls::CallCount;
use base_types::NumberList;
use edge_traits::{Failed, Sink};
use std::alloc::Global;

/// A sink that keeps what it takes.
#[derive(Debug, Drop)]
pub struct MemSink {
    taken: Vec<u8>,
    calls: CallCount,
    faults: u64,
    starved: bool,
}

impl MemSink {
    ghost use Rattle.edge_memory.specs.Sink.{sink_view, writes_of, is_starved};

    /// A sink that has taken nothing. Its writes with these numbers, from 1, are to fail.
    pub fn new(alloc: Global, fail: NumberList) -> Self
        ensures sink { ⟦<MemSink as Sink>⟧.sink result ≡ record { told = Some []; faults = 0 } }
        ensures writes { writes_of result ≡ record { made = 0; fail = fail } }
        ensures starved { is_starved result ≡ false }
    {
        MemSink {
            taken: Vec::new(alloc),
            calls: CallCount::new(fail),
            faults: 0,
            starved: false,
        }
    }

    /// What it has taken.
    pub fn bytes(&self) -> &[u8]
        ensures { (⟦<MemSink as Sink>⟧.sink self.now).told ≡ Some result.now }
    {
        &self.taken
    }

    /// Whether a write has failed that wasn't told to: it found no memory.
    pub fn starved(&self) -> bool
        ensures { result ≡ is_starved self.now }
    {
        self.starved
    }

    fn fail(&mut self) -> Failed
        ensures same { self.new ≡ record self.old { faults = self.new.faults } }
        ensures faults { self.new.faults ≡ count_sum self.old.faults 1 }
        ensures failed { Rose self.old.faults self.new.faults }
        ensures count { self.old.faults ≤ self.new.faults }
    {
        self.faults = self.faults.saturating_add(1);
        Failed
    }
}

impl Sink for MemSink {
    ghost use Rattle.edge_memory.specs.Calls.{counted, is_to_fail, faults_after};
    ghost use Rattle.edge_memory.specs.Sink.{sink_view, writes_of, is_starved};

    ghost sink = { sink_view };

    fn write(&mut self, bytes: &[u8]) -> Result<usize, Failed>
        ensures within { IfOk result (λ n. n ≤ length bytes.now) }
        ensures progress { 0 < length bytes.now → IfOk result (λ n. 0 < n) }
        ensures taken { IfOk result (λ n. Took (sink_view self.old) (sink_view self.new) (take n bytes.now)) }
        ensures refused { OnErr result (Took (sink_view self.old) (sink_view self.new) []) }
        ensures failed { IsErr result → Rose (sink_view self.old).faults (sink_view self.new).faults }
        ensures count { (sink_view self.old).faults ≤ (sink_view self.new).faults }

        // It takes all of the bytes, and fails where it was told to, or for want of memory.
        ensures whole { IfOk result (λ n. n ≡ length bytes.now) }
        ensures as_told { IsTrue (is_to_fail (writes_of self.old)) → IsErr result }
        ensures starved { is_starved self.new
            ≡ (is_starved self.old || (is_err result && not (is_to_fail (writes_of self.old)))) }
        ensures writes { writes_of self.new ≡ counted (writes_of self.old) }
        ensures faults { (sink_view self.new).faults ≡ faults_after (is_err result) (sink_view self.old).faults }
    {
        if self.calls.next_fails() {
            return Err(self.fail());
        }
        if self.taken.extend_from_slice(bytes).is_err() {
            self.starved = true;
            return Err(self.fail());
        }
        Ok(bytes.len())
    }
}
