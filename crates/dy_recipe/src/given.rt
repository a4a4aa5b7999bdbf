ghost use Rattle.std.specs.Prelude.{◌≡◌};
ghost use Rattle.std.specs.Option.{option_copied};
ghost use Rattle.dy_recipe.specs.Moves.{Leaves};
ghost use Rattle.dy_recipe.specs.Meaning.{move_of, given_at};

use crate::moves::Move;
use dy_flat::FlatTerm;

/// What is given to an attacker, who makes values of it.
pub trait Given {
    /// The values of leaves, and which entries forged a nonce.
    ghost leaves: { Self → Leaves };

    /// The value of a message, a certificate or a field of a state. `None` exactly where it is not given, and for
    /// every other move.
    fn value(&self, leaf: &Move) -> Option<&FlatTerm>
        ensures { option_copied result ≡ given_at (leaves self.now) (move_of leaf.now) };

    /// Whether the entry of this index forged a nonce.
    fn is_forge(&self, index: u32) -> bool
        ensures { result ≡ (leaves self.now).is_forge index };
}
