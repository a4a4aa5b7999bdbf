ghost use Rattle.std.specs.Prelude.{◌≡◌, ℕ, Option, List, ◌++◌, Contains, Bool, true};
ghost use Rattle.std.specs.Option.{option_map};
ghost use Rattle.dy_label.specs.Labels.{Place, Version, is_covered_by, is_open_to};
ghost use Rattle.dy_label.specs.Labels.{Label, LabelOf, is_open_where, is_open, one_or_nobody, with_readers};
ghost use Rattle.dy_label.specs.Words.{Atom, Choice, place_of, meaning_of};

/// More corruptions close no label: where each of some corruptions stands among others, a label
/// that they open is open under those others.
pub fn more_corruptions_close_no_label()
    ensures among { (some more : List Place) (label : Label) →
        ((corruption : Place) → Contains some corruption → Contains more corruption) →
        is_open some label ≡ true → is_open more label ≡ true }
    ensures appended { (some more : List Place) (label : Label) →
        is_open some label ≡ true → is_open (some ++ more) label ≡ true }
{}

/// A version is covered by a corruption exactly where its reader is open.
pub fn versions_are_covered_where_they_are_open()
    ensures { (corruptions : List Place) (principal : List ℕ) (session version : ℕ) →
        is_covered_by corruptions (Version principal session version) ≡
        is_open_to corruptions (Version principal session version) }
{}

/// Readers are put in the place of those of a declaration, which are of any kind `A`. What the label
/// in a handler stands for is the label with the places in the trace that its words stand for. A
/// label with readers put in place is open exactly where it is by the truth values of the readers in
/// their places. `nobody` is never open.
pub fn readers_are_put_in_place<A>()
    ensures in_handler { (words : A → Option Atom) (choice : Choice) (label : LabelOf A) →
        meaning_of choice (with_readers words label) ≡
        with_readers (λ reader. option_map (place_of choice) (words reader)) label }
    ensures by_words { (words : A → Option Atom) (reads : Atom → Bool) (label : LabelOf A) →
        is_open_where reads (with_readers words label) ≡
        is_open_where (λ reader. is_open_where reads (one_or_nobody (words reader))) label }
    ensures by_places { (places : A → Option Place) (corruptions : List Place) (label : LabelOf A) →
        is_open corruptions (with_readers places label) ≡
        is_open_where (λ reader. is_open corruptions (one_or_nobody (places reader))) label }
{}
