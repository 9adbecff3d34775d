ghost use Rattle.std.specs.Prelude.{◌≡◌, ℕ};

/// An entry of a table: it says what kind it is.
pub trait Kinded {
    ghost kind_number: { Self → ℕ };

    /// The entry's kind now. A call on an entry names the kind that it takes.
    fn kind(&self) -> u32
        ensures { result ≡ kind_number self.now };
}
