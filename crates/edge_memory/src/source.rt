ghost use Rattle.std.specs.Prelude.{◌≡◌, ◌<◌, ◌≤◌, ◌↔◌, ◌-◌, List, ℕ, length, take, drop, min, is_err, Some, None, IfOk, IsErr, IsTrue};
ghost use Rattle.edge_traits.specs.Count.{Rose};

use crate::calls::CallCount;
use base_types::{Blob, NumberList, Text};
use edge_traits::{Failed, Source};

/// A source over bytes in memory. It can't be dropped: one that a shelf made is given back to it, and one that was
/// made by itself ends by `into_content`.
#[derive(Debug)]
pub struct MemSource {
    name: Option<Text>,
    content: Blob,
    calls: CallCount,
    faults: u64,
}

impl MemSource {
    ghost use Rattle.edge_memory.specs.Source.{source_view, reads_of};

    /// A source with this content and no name. Its reads with these numbers, from 1, are to fail.
    pub fn new(content: Blob, fail: NumberList) -> Self
        ensures source { ⟦<MemSource as Source>⟧.source result ≡ record { name = None; told = Some content; faults = 0 } }
        ensures reads { reads_of result ≡ record { made = 0; fail = fail } }
    {
        MemSource {
            name: None,
            content,
            calls: CallCount::new(fail),
            faults: 0,
        }
    }

    /// Ends a source that wasn't fetched from a shelf, and gives its content.
    pub fn into_content(self) -> Blob
        requires { (⟦<MemSource as Source>⟧.source self).name ≡ None }
        ensures { (⟦<MemSource as Source>⟧.source self).told ≡ Some result }
    {
        let MemSource {
            name: _,
            content,
            calls: _,
            faults: _,
        } = self;
        content
    }

    pub(crate) fn fetched(name: Text, content: Blob, fail: NumberList) -> Self
        ensures source { ⟦<MemSource as Source>⟧.source result ≡ record { name = Some name; told = Some content; faults = 0 } }
        ensures reads { reads_of result ≡ record { made = 0; fail = fail } }
    {
        MemSource {
            name: Some(name),
            content,
            calls: CallCount::new(fail),
            faults: 0,
        }
    }

    pub(crate) fn into_faults(self) -> u64
        ensures { result ≡ (⟦<MemSource as Source>⟧.source self).faults }
    {
        let MemSource {
            name: _,
            content: _,
            calls: _,
            faults,
        } = self;
        faults
    }
}

impl Source for MemSource {
    ghost use Rattle.edge_memory.specs.Calls.{counted, is_to_fail, faults_after};
    ghost use Rattle.edge_memory.specs.Source.{source_view, reads_of};

    ghost source = { source_view };

    fn read_at(&mut self, at: u64, buf: &mut [u8]) -> Result<usize, Failed>
        requires { 0 < length buf.old }
        ensures within { IfOk result (λ n. n ≤ length buf.new) }
        ensures bytes { (content : List ℕ) → (source_view self.old).told ≡ Some content
            → IfOk result (λ n. take n buf.new ≡ take n (drop at content)) }
        ensures progress { (content : List ℕ) → (source_view self.old).told ≡ Some content → at < length content
            → IfOk result (λ n. 0 < n) }
        ensures failed { IsErr result → Rose (source_view self.old).faults (source_view self.new).faults }
        ensures name { (source_view self.new).name ≡ (source_view self.old).name }
        ensures told { (source_view self.new).told ≡ (source_view self.old).told }
        ensures count { (source_view self.old).faults ≤ (source_view self.new).faults }

        // It gives all that the buffer has room for, and fails where it was told to, and nowhere else.
        ensures whole { (content : List ℕ) → (source_view self.old).told ≡ Some content
            → IfOk result (λ n. n ≡ min (length buf.new) (length content - at)) }
        ensures as_told { IsErr result ↔ IsTrue (is_to_fail (reads_of self.old)) }
        ensures faults { (source_view self.new).faults ≡ faults_after (is_err result) (source_view self.old).faults }
        ensures reads { reads_of self.new ≡ counted (reads_of self.old) }
    {
        if self.calls.next_fails() {
            self.faults = self.faults.saturating_add(1);
            return Err(Failed);
        }
        Ok(copy_from(self.content.bytes(), at, buf))
    }
}

// Fills the front of `buf` from the offset `at` on, and says how many bytes it has put there.
pub(crate) fn copy_from(content: &[u8], at: u64, buf: &mut [u8]) -> usize
    ensures count { result ≡ min (length buf.new) (length content.now - at) }
    ensures bytes { take result buf.new ≡ take result (drop at content.now) }
{
    let at = at as usize;
    if at >= content.len() {
        return 0;
    }
    let rest = &content[at..];
    let n = rest.len().min(buf.len());
    buf[..n].copy_from_slice(&rest[..n]);
    n
}
