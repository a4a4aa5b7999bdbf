ghost use Rattle.std.specs.Prelude.{◌≡◌, ℕ, List, [], ◌∷◌, ◌++◌};
ghost use Rattle.dy_entry.specs.Entries.{Entry};
ghost use Rattle.dy_eval.specs.Runs.{Left, next_of, step, does};

/// One index more is one step more. What an instance does after some items and one more is one step from what it does
/// after those items.
pub fn one_index_more_is_one_step_more()
    ensures first { (X : List Entry) (left : Left) → does X left [] ≡ next_of X left }
    ensures more { (X : List Entry) (left : Left) (indices : List ℕ) (index : ℕ) →
        does X left (indices ++ index ∷ []) ≡ step X (does X left indices) index }
{}
