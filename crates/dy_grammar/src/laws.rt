ghost use Rattle.std.specs.Prelude.{◌≡◌, ℕ, List, ◌⊎◌};
ghost use Rattle.dy_lex.specs.Tokens.{Piece};
ghost use Rattle.dy_syntax.specs.Files.{File};
ghost use Rattle.dy_grammar.specs.Files.{IsFile, IsFaultOn, with_end};

/// Tokens are one file at most, its lines among it.
pub fn one_file()
    ensures { (tokens : List Piece) (file other : File) → IsFile file tokens → IsFile other tokens → file ≡ other }
{}

/// Tokens are a file, or they stop being one on one line.
pub fn one_fault()
    ensures some { (source : List ℕ) (tokens : List Piece) →
        ((file : File) × IsFile file (with_end source tokens)) ⊎ ((line : ℕ) × IsFaultOn line source tokens) }
    ensures none { (source : List ℕ) (tokens : List Piece) (file : File) (line : ℕ) →
        IsFile file (with_end source tokens) → IsFaultOn line source tokens → ⊥ }
    ensures one { (source : List ℕ) (tokens : List Piece) (line other : ℕ) →
        IsFaultOn line source tokens → IsFaultOn other source tokens → line ≡ other }
{}
