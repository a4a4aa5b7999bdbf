ghost use Rattle.std.specs.Prelude.{◌≡◌, ℕ, List, [], ◌∷◌, ◌++◌, None, Contains};
ghost use Rattle.dy_term.specs.Terms.{Term, Nonce};
ghost use Rattle.dy_label.specs.Labels.{Place, One, Version, is_open};
ghost use Rattle.dy_entry.specs.declared.entries.Entry as declared;
ghost use Rattle.dy_entry.specs.Entries.{Entry, Corrupt};
ghost use Rattle.dy_entry.specs.LookUps.{corruption_of, corruptions, is_covered};
ghost use Rattle.dy_entry.specs.Meaning.{entry_of};
ghost use Rattle.dy_entry.specs.ValueLabels.{IsMade, HasMadeNonces, label_of};

use dy_label::versions_are_covered_where_they_are_open;

/// Two entries that mean the same are the same for contracts.
pub fn entries_are_what_they_mean()
    ensures { (first second : declared.Entry) → entry_of first ≡ entry_of second → first ≡ second }
{}

/// The corruptions of a longer trace are those of the shorter one, and then those of the entries
/// more. One more entry adds what it takes, if it is a corruption.
pub fn corruptions_of_longer_traces()
    ensures appended { (T more : List Entry) → corruptions (T ++ more) ≡ corruptions T ++ corruptions more }
    ensures corrupt { (T : List Entry) (step : ℕ) (corruption : Place) →
        corruptions (T ++ Corrupt step corruption ∷ []) ≡ corruptions T ++ corruption ∷ [] }
    ensures other { (T : List Entry) (entry : Entry) → corruption_of entry ≡ None →
        corruptions (T ++ entry ∷ []) ≡ corruptions T }
    ensures contained { (T more : List Entry) (corruption : Place) →
        Contains (corruptions T) corruption → Contains (corruptions (T ++ more)) corruption }
{}

/// A version is covered exactly where its reader is open.
pub fn covered_versions_are_open()
    ensures { (T : List Entry) (principal : List ℕ) (session version : ℕ) →
        is_covered T principal session version ≡ is_open (corruptions T) (One (Version principal session version)) }
{
    versions_are_covered_where_they_are_open();
}

/// A value whose nonces are all made keeps its label in a longer trace, and they stay made. So does
/// a nonce that is made.
pub fn made_nonces_keep_their_labels()
    ensures nonce { (T more : List Entry) (index : ℕ) → IsMade T index →
        label_of (T ++ more) (Nonce index) ≡ label_of T (Nonce index) }
    ensures value { (T more : List Entry) (value : Term) → HasMadeNonces T value →
        label_of (T ++ more) value ≡ label_of T value }
    ensures still_made { (T more : List Entry) (value : Term) → HasMadeNonces T value →
        HasMadeNonces (T ++ more) value }
{}
