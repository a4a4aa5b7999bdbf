ghost use Rattle.std.specs.Prelude.{◌≡◌, ℕ, List};
ghost use Rattle.dy_lex.specs.Tokens.{Piece, Spells, IsFaulty};

/// A source has one list of tokens or one fault, and not both.
pub fn one_reading()
    ensures same { (source : List ℕ) (a b : List Piece) → Spells a 0 1 source → Spells b 0 1 source → a ≡ b }
    ensures none { (source : List ℕ) (line : ℕ) (tokens : List Piece) →
        IsFaulty 0 1 source line → Spells tokens 0 1 source → ⊥ }
    ensures first { (source : List ℕ) (line other : ℕ) →
        IsFaulty 0 1 source line → IsFaulty 0 1 source other → line ≡ other }
{}
