//! Numbers of requests and completions.
ghost use Rattle.std.specs.Prelude.{◌≡◌};

/// An item with a number of its own: requests are pushed as 0, 1, 2 and so on, and a completion has the number of its request.
pub trait Numbered {
    ghost use Rattle.std.specs.Prelude.{ℕ};

    ghost number: { Self → ℕ };

    /// Returns its number.
    fn number(&self) -> u32
        ensures { result ≡ number self.now };
}
