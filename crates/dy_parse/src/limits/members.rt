ghost use Rattle.std.specs.Prelude.{◌≡◌, ℕ, List, map};
ghost use Rattle.std.specs.List.{flat_map};
ghost use Rattle.dy_parse.specs.Limits.{Excess, counts, counts_fields};
ghost use Rattle.dy_parse.specs.Mirrors.Limits.{first_of, note_all, count_all};

use crate::errors::LimitName;
use crate::limits::counts::Count;
use crate::limits::least::First;
use sqlite_items::at;

/// A member of a list that is counted.
pub(crate) trait Placed {
    ghost Plain: { Type 0 };

    ghost plain: { Self → Plain };

    ghost place: { Plain → ℕ };

    /// The line of its first token.
    fn line(&self) -> u32
        ensures { result ≡ place (plain self.now) };
}

/// A part of which some lines are counted.
pub(crate) trait Counted {
    ghost Of: { Type 0 };

    ghost of: { Self → Of };

    ghost lines: { Of → List ℕ };

    fn count(&self, count: Count) -> Count
        ensures { result ≡ count_all (lines (of self.now)) count };
}

/// A part in which limits may be broken.
pub(crate) trait Noted {
    ghost Whole: { Type 0 };

    ghost whole: { Self → Whole };

    ghost excess: { Whole → List Excess };

    fn note(&self, first: &mut First)
        ensures { first_of first.new ≡ note_all (excess (whole self.now)) (first_of first.old) };
}

/// Takes note of a list that has too many members.
pub(crate) fn note_members<T: Placed>(which: LimitName, members: &[T], first: &mut First)
    ensures { first_of first.new
        ≡ note_all (counts which (map T.place (map T.plain members.now))) (first_of first.old) }
{
    match at(members, which.most()) {
        Some(past) => first.note(which, past.line()),
        None => {}
    }
}

/// Takes note of a list in parentheses that has too many members.
pub(crate) fn note_fields<T: Placed>(members: &[T], first: &mut First)
    ensures { first_of first.new ≡ note_all (counts_fields T.place (map T.plain members.now)) (first_of first.old) }
{
    note_members(LimitName::Fields, members, first);
}

/// Counts the members of a list.
pub(crate) fn count_members<T: Placed>(members: &[T], count: Count) -> Count
    ensures { result ≡ count_all (map T.place (map T.plain members.now)) count }
{
    let mut count = count;
    for member in members {
        count = count.with(member.line());
    }
    count
}

/// Takes note of what is broken in each of these.
pub(crate) fn note_each<T: Noted>(parts: &[T], first: &mut First)
    ensures { first_of first.new ≡ note_all (flat_map T.excess (map T.whole parts.now)) (first_of first.old) }
{
    for part in parts {
        part.note(first);
    }
}

/// Counts what each of these has.
pub(crate) fn count_each<T: Counted>(parts: &[T], count: Count) -> Count
    ensures { result ≡ count_all (flat_map T.lines (map T.of parts.now)) count }
{
    let mut count = count;
    for part in parts {
        count = part.count(count);
    }
    count
}
