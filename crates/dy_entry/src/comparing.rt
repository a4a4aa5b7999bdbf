ghost use Rattle.std.specs.Prelude.{◌≡◌, ◌≢◌, true, false};
ghost use Rattle.dy_entry.specs.Meaning.{entry_of};

use crate::entries::Entry;
use dy_flat::FlatTerm;
use dy_label::same_words;
use dy_term::sameness_is_equality;

impl Entry {
    /// Whether the two are the same entry.
    pub fn same(&self, other: &Entry) -> bool
        ensures same { result ≡ true → entry_of self.now ≡ entry_of other.now }
        ensures other { result ≡ false → entry_of self.now ≢ entry_of other.now }
    {
        match (self, other) {
            (Entry::Setup(input), Entry::Setup(other)) => input.as_slice() == other.as_slice(),
            (
                Entry::Start(step, handler, principal, session, args, message),
                Entry::Start(
                    other,
                    other_handler,
                    other_principal,
                    other_session,
                    other_args,
                    other_message,
                ),
            ) => {
                step == other
                    && handler.same(other_handler)
                    && principal.same(other_principal)
                    && session == other_session
                    && same_words(args.as_slice(), other_args.as_slice())
                    && message == other_message
            }
            (Entry::Fresh(instance, label, usage), Entry::Fresh(other, other_label, other_usage)) =>
                { instance == other && label.same(other_label) && usage.same(other_usage) }
            (Entry::Message(instance, value), Entry::Message(other, other_value)) => {
                instance == other && same_term(value, other_value)
            }
            (
                Entry::State(instance, principal, session, version, tag, fields),
                Entry::State(
                    other,
                    other_principal,
                    other_session,
                    other_version,
                    other_tag,
                    other_fields,
                ),
            ) => {
                instance == other
                    && principal.same(other_principal)
                    && session == other_session
                    && version == other_version
                    && tag.same(other_tag)
                    && same_terms(fields.as_slice(), other_fields.as_slice())
            }
            (
                Entry::Event(instance, principal, name, args),
                Entry::Event(other, other_principal, other_name, other_args),
            ) => {
                instance == other
                    && principal.same(other_principal)
                    && name.same(other_name)
                    && same_terms(args.as_slice(), other_args.as_slice())
            }
            (
                Entry::Cert(instance, principal, usage, key),
                Entry::Cert(other, other_principal, other_usage, other_key),
            ) => {
                instance == other
                    && principal.same(other_principal)
                    && usage.same(other_usage)
                    && same_term(key, other_key)
            }
            (Entry::End(instance, outcome), Entry::End(other, other_outcome)) => {
                instance == other && outcome == other_outcome
            }
            (Entry::Corrupt(step, corruption), Entry::Corrupt(other, other_corruption)) => {
                step == other && corruption.same(other_corruption)
            }
            (Entry::Inject(step, value), Entry::Inject(other, other_value)) => {
                step == other && same_term(value, other_value)
            }
            (Entry::Forge(step), Entry::Forge(other)) | (Entry::Skip(step), Entry::Skip(other)) => {
                step == other
            }
            _ => false,
        }
    }
}

fn same_term(first: &FlatTerm, second: &FlatTerm) -> bool
    ensures same { result ≡ true → first.now ≡ second.now }
    ensures other { result ≡ false → first.now ≢ second.now }
{
    sameness_is_equality();
    dy_flat::same(first.whole(), second.whole())
}

/// Whether the two lists have the same terms in the same order.
fn same_terms(terms: &[FlatTerm], others: &[FlatTerm]) -> bool
    ensures same { result ≡ true → terms.now ≡ others.now }
    ensures other { result ≡ false → terms.now ≢ others.now }
{
    if terms.len() != others.len() {
        return false;
    }
    for i in 0..terms.len() {
        if !same_term(&terms[i], &others[i]) {
            return false;
        }
    }
    true
}
