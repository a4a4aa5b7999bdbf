ghost use Rattle.std.specs.Prelude.{ℕ, List, [], ◌∷◌, ◌++◌, Option, Contains};
ghost use Rattle.dy_term.specs.Terms.{Term};
ghost use Rattle.dy_label.specs.Labels.{Place};
ghost use Rattle.dy_label.specs.Words.{Choice};
ghost use Rattle.dy_label.specs.declared.usages.Outcome.{Outcome};
ghost use Rattle.dy_syntax.specs.Files.{Decl, File};
ghost use Rattle.dy_typing.specs.Knowledge.{Knowledge, IsWeakerKnowledge};
ghost use Rattle.dy_entry.specs.Entries.{Entry, Setup, Start, End, Corrupt, Forge, Inject, Skip};
ghost use Rattle.dy_entry.specs.Attacker.{Derives};
ghost use Rattle.dy_eval.specs.declared.written.Written.{Written};
ghost use Rattle.dy_eval.specs.Names.{Names};
ghost use Rattle.dy_traces.specs.Following.{MayStart, MayInject};
ghost use Rattle.dy_traces.specs.Interleavings.{Interleaves};
ghost use Rattle.dy_sound.specs.Valid.{IsValid, MayBeKnown};
ghost use Rattle.dy_sound.specs.Knowledge.{Holds};
ghost use Rattle.dy_sound.specs.Good.{IsGood};
ghost use Rattle.dy_sound.specs.Secure.{SecretsKept, EventsFollow};

use crate::laws_below::laws_below;

/// What is valid in a trace is valid in a longer one, and what a handler knows of valid values holds
/// there too.
pub fn what_holds_stays_to_hold()
    ensures valid { (decls : List Decl) (T more : List Entry) (value : Term) →
        IsValid decls T value → IsValid decls (T ++ more) value }
    ensures knowledge { (decls : List Decl) (T more : List Entry) (choice : Choice) (names : Names) (k : Knowledge) →
        ((written : Written) → Contains names.written written → IsValid decls T written.bytes) →
        Holds decls T choice names k → Holds decls (T ++ more) choice names k }
{
    laws_below();
}

/// Weaker knowledge of a handler holds where stronger knowledge does.
pub fn weaker_knowledge_holds()
    ensures { (decls : List Decl) (T : List Entry) (choice : Choice) (names : Names) (k weaker : Knowledge) →
        IsWeakerKnowledge k weaker → Holds decls T choice names k → Holds decls T choice names weaker }
{
    laws_below();
}

/// What the attacker derives in a good trace is valid, and its label is open under the trace's
/// corruptions.
pub fn derived_values_may_be_known()
    ensures { (decls : List Decl) (T : List Entry) (value : Term) →
        IsGood decls T → Derives T value → MayBeKnown decls T value }
{
    laws_below();
}

/// A good trace keeps its secrets, and each of its events follows its partners.
pub fn good_traces_are_secure()
    ensures secrets { (decls : List Decl) (T : List Entry) → IsGood decls T → SecretsKept T }
    ensures events { (decls : List Decl) (T : List Entry) → IsGood decls T → EventsFollow decls T }
{
    derived_values_may_be_known();
}

/// A trace of the Setup alone is good.
pub fn the_opening_trace_is_good()
    ensures { (decls : List Decl) (input : List ℕ) → IsGood decls (Setup input ∷ []) }
{
    laws_below();
}

/// A good trace stays good with what the attacker does. That is a corruption, a nonce, a step that
/// is left out, or a message of bytes that may follow. It also stays good where an instance ends.
pub fn the_attacker_keeps_a_trace_good()
    ensures corrupt { (decls : List Decl) (T : List Entry) (step : ℕ) (corruption : Place) →
        IsGood decls T → IsGood decls (T ++ Corrupt step corruption ∷ []) }
    ensures forge { (decls : List Decl) (T : List Entry) (step : ℕ) →
        IsGood decls T → IsGood decls (T ++ Forge step ∷ []) }
    ensures skip { (decls : List Decl) (T : List Entry) (step : ℕ) →
        IsGood decls T → IsGood decls (T ++ Skip step ∷ []) }
    ensures inject { (decls : List Decl) (T : List Entry) (step : ℕ) (value : Term) →
        IsGood decls T → MayInject T step value → IsGood decls (T ++ Inject step value ∷ []) }
    ensures end_ { (decls : List Decl) (T : List Entry) (instance : ℕ) (outcome : Outcome) →
        IsGood decls T → IsGood decls (T ++ End instance outcome ∷ []) }
{
    laws_below();
}

/// An interleaving that is good stays good with a Start that may follow.
pub fn a_start_keeps_a_trace_good()
    ensures { (bytes : List ℕ) (file : File) (T : List Entry) (step : ℕ) (handler principal : List ℕ) (session : ℕ)
        (args : List (List ℕ)) (message : Option ℕ) → Interleaves bytes file T → IsGood file.decls T →
        MayStart file.decls T step handler principal session args message →
        IsGood file.decls (T ++ Start step handler principal session args message ∷ []) }
{
    laws_below();
}
