//! What a value must tell to be shared by turns.
ghost use Rattle.std.specs.Prelude.{◌≡◌, List, length};

/// There was no memory.
#[derive(Debug, Drop)]
pub struct Memory;

/// A value with a history that only grows.
pub trait Counted: Drop {
    type Item;

    ghost history: { Self → List Self.Item };

    ghost same_base: { Self → Self → Type 0 };

    /// How many items the history has.
    fn count(&self) -> u64
        ensures { result ≡ length (history self.now) };

    ghost same_base_as_itself: { (value : Self) → same_base value value };
}
