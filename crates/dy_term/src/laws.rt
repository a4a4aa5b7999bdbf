ghost use Rattle.std.specs.Prelude.{◌≡◌, ℕ, List, ◌++◌, length, true, false};
ghost use Rattle.dy_term.specs.Characters.{begins_with_word_byte};
ghost use Rattle.dy_term.specs.Sameness.{is_same};
ghost use Rattle.dy_term.specs.Terms.{Term};
ghost use Rattle.dy_term.specs.TermText.{term_text};
ghost use Rattle.dy_term.specs.TermReading.{is_made, IsTextOf, StartsWithTerm};

/// Text and term determine each other: a term that can stand in the code has one text, and no two
/// such terms have the same.
pub fn one_term()
    ensures text { (term : Term) (a b : List ℕ) → IsTextOf term a → IsTextOf term b → a ≡ b }
    ensures term { (text : List ℕ) (a b : Term) → IsTextOf a text → IsTextOf b text → a ≡ b }
    ensures every { (term : Term) → is_made term ≡ true → IsTextOf term (term_text term) }
{}

/// Bytes begin with a term wherever its text stands first and no letter, digit or `_` follows. They begin with at
/// most one term, which ends at one place.
pub fn term_ends()
    ensures ends { (term : Term) (text rest : List ℕ) →
        IsTextOf term text → begins_with_word_byte rest ≡ false →
        StartsWithTerm (text ++ rest) term (length text) }
    ensures place { (bytes : List ℕ) (a b : Term) (m n : ℕ) →
        StartsWithTerm bytes a m → StartsWithTerm bytes b n → m ≡ n }
    ensures term { (bytes : List ℕ) (a b : Term) (m n : ℕ) →
        StartsWithTerm bytes a m → StartsWithTerm bytes b n → a ≡ b }
{}

/// Two terms are the same, part by part, exactly where they are equal.
pub fn sameness_is_equality()
    ensures equal { (a b : Term) → is_same a b ≡ true → a ≡ b }
    ensures same { (a : Term) → is_same a a ≡ true }
{}
