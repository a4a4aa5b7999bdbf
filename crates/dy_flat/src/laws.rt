ghost use Rattle.std.specs.Prelude.{◌≡◌, ℕ, ◌<◌, Some, List, [], ◌∷◌, ◌++◌, length, slice_get};
ghost use Rattle.dy_term.specs.Terms.{Term, size};
ghost use Rattle.dy_flat.specs.Parts.{parts_of};
ghost use Rattle.dy_flat.specs.Walks.{steps_of, walk_of, terms_by_steps};

/// A part has fewer nodes than the whole.
pub fn part_is_smaller()
    ensures { (term part : Term) (number : ℕ) →
        slice_get (parts_of term) number ≡ Some part → size part < size term }
{}

/// The steps of a term, each over the terms of earlier steps, make its parts and last the term: one for each node.
pub fn steps_give_term()
    ensures terms { (term : Term) → terms_by_steps [] (steps_of term) ≡ Some (walk_of term) }
    ensures last { (term : Term) → (parts : List Term) × (walk_of term ≡ parts ++ term ∷ []) }
    ensures each { (term : Term) → length (walk_of term) ≡ size term }
{}
