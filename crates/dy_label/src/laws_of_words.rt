ghost use Rattle.std.specs.Prelude.{◌≡◌, ℕ, ◌<◌, ◌^◌, ◌↔◌, Bool, true, List, bit_or};
ghost use Rattle.std.specs.List.{list_all};
ghost use Rattle.dy_label.specs.Labels.{Place, is_open_where, is_open};
ghost use Rattle.dy_label.specs.Words.{StaticLabel, Choice, meaning_of, is_word_open};
ghost use Rattle.dy_label.specs.Words.{uses_names_below, KeepsApart, is_version, Implies, ImpliesByVersions};
ghost use Rattle.dy_label.specs.Tables.{is_set, opens_in, is_lawful, value_at, IsRowOf, ImpliesInRows, IsTableOf};

use crate::tables::{ROW_BITS, ROWS};
use crate::words::NAMES;

/// What a label of a handler stands for is open exactly where the label is by the truth values of
/// its words.
pub fn labels_are_open_as_their_words_are()
    ensures { (choice : Choice) (corruptions : List Place) (label : StaticLabel) →
        is_open corruptions (meaning_of choice label) ≡ is_open_where (is_word_open choice corruptions) label }
{}

/// One label implies another exactly where it does in each lawful row.
pub fn implication_by_rows()
    ensures { (l m : StaticLabel) → uses_names_below NAMES l ≡ true → uses_names_below NAMES m ≡ true →
        Implies l m ↔ ImpliesInRows l m }
{}

/// Every choice and all corruptions give a lawful row, also where names are given the same
/// principal. Every lawful row is given by some choice of different principals and some corruptions
/// of versions.
pub fn choices_and_rows()
    ensures lawful { (choice : Choice) (corruptions : List Place) →
        (row : ℕ) × (row < ROWS) × (is_lawful row ≡ true) × IsRowOf choice corruptions row }
    ensures given { (row : ℕ) → is_lawful row ≡ true →
        (choice : Choice) × (corruptions : List Place) × KeepsApart NAMES choice ×
        (list_all is_version corruptions ≡ true) × IsRowOf choice corruptions row }
{}

/// Corruptions of whole sessions and principals add nothing to those of versions: the same labels
/// imply one another under either, whatever names they use.
pub fn versions_decide_implication()
    ensures { (l m : StaticLabel) → Implies l m ↔ ImpliesByVersions l m }
{}

/// A label does not close when a bit is added to a row, and so its table never falls.
pub fn tables_never_fall()
    ensures labels { (label : StaticLabel) (row other : ℕ) →
        ((bit : ℕ) → is_set row bit ≡ true → is_set other bit ≡ true) →
        is_open_where (opens_in row) label ≡ true → is_open_where (opens_in other) label ≡ true }
    ensures tables { (label : StaticLabel) (table : List ℕ) → IsTableOf label table →
        (row bit : ℕ) → row < ROWS → bit < ROW_BITS →
        value_at table row ≡ true → value_at table (bit_or row (2 ^ bit)) ≡ true }
{}
