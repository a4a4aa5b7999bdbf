ghost use Rattle.std.specs.Prelude.{◌≡◌, ℕ, ◌<◌, ◌≤◌, true, List, [], ◌∷◌, ◌++◌, Some, slice_get, take, length};
ghost use Rattle.dy_syntax.specs.Files.{File};
ghost use Rattle.dy_syntax.specs.Rules.{IsWellFormed};
ghost use Rattle.dy_parse.specs.Reading.{Reads};
ghost use Rattle.dy_entry.specs.Entries.{Entry, Setup};
ghost use Rattle.dy_entry.specs.LookUps.{newest};
ghost use Rattle.dy_eval.specs.Past.{HasEachVersionOnce};
ghost use Rattle.dy_traces.specs.declared.limits.TheConstants.{MAX_STEPS};
ghost use Rattle.dy_traces.specs.Steps.{has_step, IsShort};
ghost use Rattle.dy_traces.specs.Following.{MayFollow};
ghost use Rattle.dy_traces.specs.Interleavings.{Interleaves};
ghost use Rattle.dy_traces.specs.SmallValues.{HasSmallValues};

use dy_parse::one_file;

/// Each prefix of an interleaving that has its Setup is one, of the same file. A prefix of a short trace is short.
pub fn prefixes_are_interleavings()
    ensures prefix { (bytes : List ℕ) (file : File) (T : List Entry) (n : ℕ) →
        Interleaves bytes file T → 0 < n → Interleaves bytes file (take n T) }
    ensures short { (T : List Entry) (n : ℕ) → IsShort T → IsShort (take n T) }
{}

/// A trace is an interleaving of one file at most, and of its bytes alone.
pub fn one_file_for_a_trace()
    ensures { (bytes other_bytes : List ℕ) (file other : File) (T : List Entry) →
        Interleaves bytes file T → Interleaves other_bytes other T → (bytes ≡ other_bytes) × (file ≡ other) }
{
    one_file();
}

/// The Setup of the bytes of a well-formed file, and nothing more, is a short interleaving.
pub fn opening_trace()
    ensures interleaves { (bytes : List ℕ) (file : File) →
        Reads bytes file → IsWellFormed file → Interleaves bytes file (Setup bytes ∷ []) }
    ensures short { (bytes : List ℕ) → IsShort (Setup bytes ∷ []) }
{}

/// An interleaving and one more entry is an interleaving exactly where the entry may follow.
pub fn a_longer_interleaving()
    ensures longer { (bytes : List ℕ) (file : File) (T : List Entry) (e : Entry) →
        Interleaves bytes file T → MayFollow file.decls T e → Interleaves bytes file (T ++ e ∷ []) }
    ensures follows { (bytes : List ℕ) (file : File) (T : List Entry) (e : Entry) →
        0 < length T → Interleaves bytes file (T ++ e ∷ []) → MayFollow file.decls T e }
{}

/// A short trace stays short with an entry more that has no step number of 1,024 or more.
pub fn a_longer_short_trace()
    ensures { (T : List Entry) (e : Entry) → IsShort T
        → ((step : ℕ) → has_step step e ≡ true → step < MAX_STEPS) → IsShort (T ++ e ∷ []) }
{}

/// In an interleaving each version of a session's state stands once, and no session has more versions than the trace
/// has entries.
pub fn versions_stand_once()
    ensures once { (bytes : List ℕ) (file : File) (T : List Entry) → Interleaves bytes file T → HasEachVersionOnce T }
    ensures few { (bytes : List ℕ) (file : File) (T : List Entry) (principal : List ℕ) (session : ℕ) →
        Interleaves bytes file T → newest T principal session ≤ length T }
{}

/// In an interleaving each value of an entry has at most 1,024 nodes.
pub fn values_are_small()
    ensures { (bytes : List ℕ) (file : File) (T : List Entry) (i : ℕ) (e : Entry) →
        Interleaves bytes file T → slice_get T i ≡ Some e → HasSmallValues e }
{}
