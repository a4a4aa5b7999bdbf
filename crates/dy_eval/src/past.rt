ghost use Rattle.std.specs.Prelude.{◌≡◌, List, MatchOption};
ghost use Rattle.std.specs.Option.{option_map, option_copied};
ghost use Rattle.dy_entry.specs.Entries.{Entry};
ghost use Rattle.dy_entry.specs.LookUps as look_ups;
ghost use Rattle.dy_entry.specs.LookUps.{IsNext, HasNoNext};
ghost use Rattle.dy_eval.specs.Past.{state_in, cert_in};
ghost use Rattle.dy_eval.specs.StoredMeaning.{stored_of};

use dy_flat::FlatTerm;
use dy_term::Word;

/// A version of a session's state that is lent.
#[derive(Clone, Copy)]
pub struct Stored<'a> {
    pub tag: &'a Word,
    pub session: u32,
    pub version: u32,
    pub fields: &'a [FlatTerm],
}

/// The trace before the `Start` of an instance, of which its States and Certs are told.
pub trait Past {
    ghost trace: { Self → List Entry };

    /// The index of this version of this session of the principal, or `None` where none is.
    fn state_at(&self, principal: &Word, session: u32, version: u32) -> Option<u32>
        ensures { result ≡ look_ups.state_at (trace self.now) principal.now session version };

    /// The greatest version of this session of the principal, or 0 where it has none.
    fn newest(&self, principal: &Word, session: u32) -> u32
        ensures { result ≡ look_ups.newest (trace self.now) principal.now session };

    /// The index of the next state of this principal and tag. It is the first after the session and version `from`,
    /// or the first of all where none is given. States are in the order of rising sessions and, within one, of falling
    /// versions. `None` where there is none.
    fn find_state(&self, principal: &Word, tag: &Word, from: Option<(u32, u32)>) -> Option<u32>
        ensures { MatchOption result
            (HasNoNext (trace self.now) principal.now tag.now from)
            (λ index. IsNext (trace self.now) principal.now tag.now from index) };

    /// The index of the first certificate of this principal for this usage, or `None` where there is none.
    fn find_cert(&self, principal: &Word, usage: &Word) -> Option<u32>
        ensures { result ≡ look_ups.find_cert (trace self.now) principal.now usage.now };

    /// The state of this index. `None` exactly where none stands there.
    fn state(&self, index: u32) -> Option<Stored<'_>>
        ensures { option_map stored_of result ≡ state_in (trace self.now) index };

    /// The key of the certificate of this index. `None` exactly where none stands there.
    fn cert(&self, index: u32) -> Option<&FlatTerm>
        ensures { option_copied result ≡ cert_in (trace self.now) index };
}
