ghost use Rattle.std.specs.Prelude.{◌≡◌, ◌<◌, ◌≤◌, List, ℕ, length, take, drop, Some, IfOk, IsErr};
ghost use Rattle.edge_traits.specs.Count.{Rose};
ghost use Rattle.edge_traits.specs.Source.{SourceView};

/// The outside failed.
#[derive(Clone, Copy, Debug, PartialEq, Eq)]
pub struct Failed;

/// A source of bytes that is read by offset, as a file is.
pub trait Source {
    ghost source: { Self → SourceView };

    /// Reads bytes from the offset `at` on into the front of `buf`, at least one where there is one, and answers how
    /// many. 0 means that the end lies at or before `at`.
    fn read_at(&mut self, at: u64, buf: &mut [u8]) -> Result<usize, Failed>
        requires { 0 < length buf.old }
        ensures within { IfOk result (λ n. n ≤ length buf.new) }
        ensures bytes { (content : List ℕ) → (source self.old).told ≡ Some content
            → IfOk result (λ n. take n buf.new ≡ take n (drop at content)) }
        ensures progress { (content : List ℕ) → (source self.old).told ≡ Some content → at < length content
            → IfOk result (λ n. 0 < n) }
        ensures failed { IsErr result → Rose (source self.old).faults (source self.new).faults }

        ensures name { (source self.new).name ≡ (source self.old).name }
        ensures told { (source self.new).told ≡ (source self.old).told }
        ensures count { (source self.old).faults ≤ (source self.new).faults };
}
