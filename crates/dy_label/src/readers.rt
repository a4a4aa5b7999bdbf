ghost use Rattle.std.specs.Prelude.{◌≡◌, ◌≢◌, true, false};
ghost use Rattle.std.specs.List.{list_any};
ghost use Rattle.dy_label.specs.Labels.{Version, covers, opens};
ghost use Rattle.dy_label.specs.LabelsMeaning.{place_of_reader, place_of_corruption};

use dy_term::Word;

/// Who may read a value: a principal, one of its sessions, or one version of a session's state.
#[derive(Debug, Drop)]
pub enum Reader {
    Principal(Word),
    Session(Word, u32),
    Version(Word, u32, u32),
}

impl Reader {
    /// Whether the two name the same place.
    pub fn same(&self, other: &Reader) -> bool
        ensures same { result ≡ true → place_of_reader self.now ≡ place_of_reader other.now }
        ensures other { result ≡ false → place_of_reader self.now ≢ place_of_reader other.now }
    {
        match (self, other) {
            (Reader::Principal(p), Reader::Principal(q)) => p.same(q),
            (Reader::Session(p, s), Reader::Session(q, t)) => p.same(q) && s == t,
            (Reader::Version(p, s, v), Reader::Version(q, t, w)) => p.same(q) && s == t && v == w,
            _ => false,
        }
    }

    /// An equal reader.
    pub fn copy(&self) -> Reader
        ensures { result ≡ self.now }
    {
        match self {
            Reader::Principal(p) => Reader::Principal(p.copy()),
            Reader::Session(p, s) => Reader::Session(p.copy(), *s),
            Reader::Version(p, s, v) => Reader::Version(p.copy(), *s, *v),
        }
    }
}

/// What the attacker has taken: a principal, one of its sessions, or one version of a session's
/// state.
#[derive(Debug, Drop)]
pub enum Corruption {
    Principal(Word),
    Session(Word, u32),
    Version(Word, u32, u32),
}

impl Corruption {
    /// Whether the two name the same place.
    pub fn same(&self, other: &Corruption) -> bool
        ensures same { result ≡ true → place_of_corruption self.now ≡ place_of_corruption other.now }
        ensures other { result ≡ false → place_of_corruption self.now ≢ place_of_corruption other.now }
    {
        match (self, other) {
            (Corruption::Principal(p), Corruption::Principal(q)) => p.same(q),
            (Corruption::Session(p, s), Corruption::Session(q, t)) => p.same(q) && s == t,
            (Corruption::Version(p, s, v), Corruption::Version(q, t, w)) => p.same(q)
                && s == t
                && v == w,
            _ => false,
        }
    }

    /// Whether the corruption covers this version of this session of the principal, so that the
    /// attacker has what is stored there.
    pub fn covers(&self, principal: &Word, session: u32, version: u32) -> bool
        ensures { result ≡ covers (place_of_corruption self.now) (Version principal.now session version) }
    {
        match self {
            Corruption::Principal(p) => p.same(principal),
            Corruption::Session(p, s) => p.same(principal) && *s == session,
            Corruption::Version(p, s, v) => p.same(principal) && *s == session && *v == version,
        }
    }

    /// An equal corruption.
    pub fn copy(&self) -> Corruption
        ensures { result ≡ self.now }
    {
        match self {
            Corruption::Principal(p) => Corruption::Principal(p.copy()),
            Corruption::Session(p, s) => Corruption::Session(p.copy(), *s),
            Corruption::Version(p, s, v) => Corruption::Version(p.copy(), *s, *v),
        }
    }
}

/// Whether the corruption opens the reader: the place of one lies within the other's.
fn opens(reader: &Reader, corruption: &Corruption) -> bool
    ensures { result ≡ opens (place_of_reader reader.now) (place_of_corruption corruption.now) }
{
    match (reader, corruption) {
        (Reader::Principal(p), Corruption::Principal(q))
        | (Reader::Principal(p), Corruption::Session(q, _))
        | (Reader::Principal(p), Corruption::Version(q, _, _))
        | (Reader::Session(p, _), Corruption::Principal(q))
        | (Reader::Version(p, _, _), Corruption::Principal(q)) => p.same(q),
        (Reader::Session(p, s), Corruption::Session(q, t))
        | (Reader::Session(p, s), Corruption::Version(q, t, _))
        | (Reader::Version(p, s, _), Corruption::Session(q, t)) => p.same(q) && s == t,
        (Reader::Version(p, s, v), Corruption::Version(q, t, w)) => p.same(q) && s == t && v == w,
    }
}

/// Whether some of the corruptions opens the reader.
pub(crate) fn is_open_to(corruptions: &[Corruption], reader: &Reader) -> bool
    ensures { result ≡
        list_any (λ corruption. opens (place_of_reader reader.now) (place_of_corruption corruption)) corruptions.now }
{
    corruptions
        .iter()
        .any(|corruption| opens(reader, corruption))
}
