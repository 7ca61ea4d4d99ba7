ghost use Rattle.std.specs.Prelude.{◌≡◌, ℕ, Option, Some};

/// What tells the time.
pub trait Clock {
    /// The one moment that every call answers, if the clock tells it.
    ghost told: { Self → Option ℕ };

    /// The seconds since 1970-01-01T00:00:00 UTC.
    fn now(&self) -> u64
        ensures { (moment : ℕ) → told self.now ≡ Some moment → result ≡ moment };
}
