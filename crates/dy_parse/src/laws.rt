ghost use Rattle.std.specs.Prelude.{◌≡◌, ℕ, true, List};
ghost use Rattle.dy_lex.specs.Tokens.{Piece};
ghost use Rattle.dy_syntax.specs.Files.{File};
ghost use Rattle.dy_syntax.specs.SameFiles.{AreSame};
ghost use Rattle.dy_grammar.specs.Files.{IsFile};
ghost use Rattle.dy_grammar.specs.Levels.{is_shallow};
ghost use Rattle.dy_parse.specs.Limits.{FileBreaks};
ghost use Rattle.dy_parse.specs.Reading.{Reads, IsBadLine, IsOverLimit};

use crate::errors::LimitName;
use dy_grammar::one_fault;
use dy_lex::one_reading;

/// No bytes are two files.
pub fn one_file()
    ensures { (bytes : List ℕ) (a b : File) → Reads bytes a → Reads bytes b → a ≡ b }
{
    one_reading();
    dy_grammar::one_file();
}

/// Bytes are a file, or bad on one line, or over one limit first, and no two of these. By what `parse` answers,
/// short of running out of memory, they are one of them; so each answer comes exactly where its definition holds.
pub fn one_parse()
    ensures not_bad { (bytes : List ℕ) (file : File) (line : ℕ) → Reads bytes file → IsBadLine bytes line → ⊥ }
    ensures not_over { (bytes : List ℕ) (file : File) (line : ℕ) (which : LimitName) →
        Reads bytes file → IsOverLimit bytes line which → ⊥ }
    ensures apart { (bytes : List ℕ) (line other : ℕ) (which : LimitName) →
        IsBadLine bytes line → IsOverLimit bytes other which → ⊥ }
    ensures one_line { (bytes : List ℕ) (line other : ℕ) →
        IsBadLine bytes line → IsBadLine bytes other → line ≡ other }
    ensures one_limit { (bytes : List ℕ) (line other_line : ℕ) (which other : LimitName) →
        IsOverLimit bytes line which → IsOverLimit bytes other_line other → (line ≡ other_line) × (which ≡ other) }
{
    one_reading();
    one_fault();
    dy_grammar::one_file();
}

/// Files that are the same but for line numbers break the same limits, whatever their tokens.
pub fn same_limits()
    ensures { (a b : File) (which : LimitName) (line : ℕ) →
        AreSame a b → FileBreaks which line a → (other : ℕ) × FileBreaks which other b }
{}

/// Where a file nowhere breaks the limit of nesting, nothing in the tree that spells it stands too deep.
pub fn trees_are_shallow()
    ensures { (file : File) (tokens : List Piece) (is_file : IsFile file tokens) →
        ((line : ℕ) → FileBreaks LimitName.Nesting line file → ⊥) → is_shallow is_file.tree ≡ true }
{}
