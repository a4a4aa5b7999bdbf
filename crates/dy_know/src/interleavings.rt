ghost use Rattle.std.specs.Prelude.{ℕ, List, Contains};
ghost use Rattle.dy_syntax.specs.Files.{File};
ghost use Rattle.dy_entry.specs.Entries.{Entry};
ghost use Rattle.dy_traces.specs.Interleavings.{Interleaves};
ghost use Rattle.dy_derive.specs.KnowledgeMeaning.{GivesSmallValues};
ghost use Rattle.dy_know.specs.Conditions.{MakesNoncesFirst};

use dy_traces::values_are_small;

/// At each prefix of an interleaving the attacker derives only nonces that were made in it.
pub fn interleavings_make_nonces_first()
    ensures { (bytes : List ℕ) (file : File) (T : List Entry) → Interleaves bytes file T → MakesNoncesFirst T }
{}

/// In an interleaving each value that an entry may give has at most 1,024 nodes.
pub fn interleavings_give_small_values()
    ensures { (bytes : List ℕ) (file : File) (T : List Entry) → Interleaves bytes file T →
        (entry : Entry) → Contains T entry → GivesSmallValues entry }
{
    values_are_small();
}
