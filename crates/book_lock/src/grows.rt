ghost use Rattle.std.specs.Prelude.{◌≡◌, List, length};

/// A value that contracts see as a list which only grows.
pub trait Grows {
    type Entry;

    ghost entries: { Self → List Self.Entry };

    /// How many entries the list has.
    fn count(&self) -> u64
        ensures { result ≡ length (entries self.now) };
}
