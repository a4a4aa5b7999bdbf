//! When two files are the same but for line numbers.

ghost use Rattle.std.specs.Prelude.{◌≡◌, ◌≢◌, true, false, map};
ghost use Rattle.std.specs.Option.{option_map};

mod declarations;
mod expressions;
pub(crate) mod files;
mod labels;
mod names;
mod plans;
mod recipes;
mod statements;

/// A part of a file that may be the same as another one but for line numbers.
pub(crate) trait Part {
    ghost Plain: { Type 0 };

    /// The part as plain data.
    ghost plain: { Self → Plain };

    /// The same without line numbers.
    ghost bare: { Plain → Plain };

    fn same(&self, other: &Self) -> bool
        ensures same { result ≡ true → bare (plain self.now) ≡ bare (plain other.now) }
        ensures other { result ≡ false → bare (plain self.now) ≢ bare (plain other.now) };
}

/// Whether the two lists have the same parts in the same order.
#[tactic(auto, using(crate::proofs::SameParts::differs_there, crate::proofs::SameParts::other_length))]
fn same_parts<P: Part>(parts: &[P], others: &[P]) -> bool
    ensures same { result ≡ true → map P.bare (map P.plain parts.now) ≡ map P.bare (map P.plain others.now) }
    ensures other { result ≡ false → map P.bare (map P.plain parts.now) ≢ map P.bare (map P.plain others.now) }
{
    if parts.len() != others.len() {
        return false;
    }
    for i in 0..parts.len() {
        if !parts[i].same(&others[i]) {
            return false;
        }
    }
    true
}

/// Whether both have the same part, or neither has one.
fn same_option<P: Part>(part: &Option<P>, other: &Option<P>) -> bool
    ensures same { result ≡ true →
        option_map P.bare (option_map P.plain part.now) ≡ option_map P.bare (option_map P.plain other.now) }
    ensures other { result ≡ false →
        option_map P.bare (option_map P.plain part.now) ≢ option_map P.bare (option_map P.plain other.now) }
{
    match (part, other) {
        (Some(part), Some(other)) => part.same(other),
        (None, None) => true,
        _ => false,
    }
}
