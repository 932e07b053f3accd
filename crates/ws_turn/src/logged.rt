ghost use Rattle.std.specs.Prelude.{◌≡◌, ℕ, List, length, Option};

/// A value that stands for a list of entries, the history, and for data that nothing changes, its base.
/// Each entry has the number of a pass, and may give a number, of which a pass can then be made.
pub trait Logged: Drop {
    type Entry;

    type Base;

    // The data that nothing changes.
    ghost base: { Self → Self.Base };

    // The history, the oldest entry first.
    ghost list: { Self → List Self.Entry };

    // The number of the pass that made an entry.
    ghost by: { Self.Entry → ℕ };

    // The number that an entry gives, where it makes a pass.
    ghost gives: { Self.Entry → Option ℕ };

    /// How many entries there are.
    fn entries(&self) -> u64
        ensures { result ≡ length (list self.now) };
}
