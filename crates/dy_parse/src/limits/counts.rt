ghost use Rattle.std.specs.Prelude.{◌≡◌};
ghost use Rattle.dy_parse.specs.Limits.{breaks};
ghost use Rattle.dy_parse.specs.Mirrors.Limits as mirror;
ghost use Rattle.dy_parse.specs.Mirrors.Limits.{first_of, note_all};

use crate::errors::LimitName;
use crate::limits::least::First;

/// A list that is counted piece by piece.
#[derive(Clone, Copy, Debug, PartialEq, Eq)]
pub(crate) enum Count {
    /// So many more may come.
    Room(usize),
    /// The line of the first that is too many.
    Past(u32),
}

impl Count {
    /// With one more member, on this line.
    pub(crate) fn with(self, line: u32) -> Count
        ensures { result ≡ mirror.count_one line self }
    {
        match self {
            Count::Room(0) => Count::Past(line),
            Count::Room(more) => Count::Room(more - 1),
            Count::Past(first) => Count::Past(first),
        }
    }

    pub(crate) fn is_past(self) -> bool
        ensures { result ≡ mirror.is_past self }
    {
        matches!(self, Count::Past(_))
    }
}

/// Takes note of a list that has too many members.
pub(crate) fn note_count(which: LimitName, count: Count, first: &mut First)
    ensures { first_of first.new ≡ note_all (breaks which (mirror.past count)) (first_of first.old) }
{
    if let Count::Past(line) = count {
        first.note(which, line);
    }
}
