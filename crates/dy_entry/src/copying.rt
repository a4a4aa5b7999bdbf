ghost use Rattle.std.specs.Prelude.{◌≡◌, IfOk};

use crate::entries::Entry;
use dy_flat::FlatTerm;
use dy_label::copy_words;
use dy_term::Memory;
use sqlite_items::Items;
use std::alloc::Global;

impl Entry {
    /// An equal entry, in memory of its own. It refuses out of memory alone.
    pub fn copy(&self, alloc: Global) -> Result<Entry, Memory>
        ensures { IfOk result (λ entry. entry ≡ self.now) }
    {
        Ok(match self {
            Entry::Setup(input) => Entry::Setup(copy_bytes(alloc, input.as_slice())?),
            Entry::Start(step, handler, principal, session, args, message) => {
                let args = copy_words(alloc, args.as_slice())?;
                Entry::Start(
                    *step,
                    handler.copy(),
                    principal.copy(),
                    *session,
                    args,
                    *message,
                )
            }
            Entry::Fresh(instance, label, usage) => {
                Entry::Fresh(*instance, label.copy(alloc)?, usage.copy(alloc)?)
            }
            Entry::Message(instance, value) => Entry::Message(*instance, value.copy(alloc)?),
            Entry::State(instance, principal, session, version, tag, fields) => {
                let fields = copy_terms(alloc, fields.as_slice())?;
                Entry::State(
                    *instance,
                    principal.copy(),
                    *session,
                    *version,
                    tag.copy(),
                    fields,
                )
            }
            Entry::Event(instance, principal, name, args) => {
                let args = copy_terms(alloc, args.as_slice())?;
                Entry::Event(*instance, principal.copy(), name.copy(), args)
            }
            Entry::Cert(instance, principal, usage, key) => {
                Entry::Cert(*instance, principal.copy(), usage.copy(), key.copy(alloc)?)
            }
            Entry::End(instance, outcome) => Entry::End(*instance, *outcome),
            Entry::Corrupt(step, corruption) => Entry::Corrupt(*step, corruption.copy()),
            Entry::Forge(step) => Entry::Forge(*step),
            Entry::Inject(step, value) => Entry::Inject(*step, value.copy(alloc)?),
            Entry::Skip(step) => Entry::Skip(*step),
        })
    }
}

fn copy_bytes(alloc: Global, bytes: &[u8]) -> Result<Items<u8>, Memory>
    ensures { IfOk result (λ copied. copied ≡ bytes.now) }
{
    Ok(Items::from_slice(alloc, bytes)?)
}

fn copy_terms(alloc: Global, terms: &[FlatTerm]) -> Result<Items<FlatTerm>, Memory>
    ensures { IfOk result (λ copied. copied ≡ terms.now) }
{
    let mut copied = Items::new(alloc);
    for term in terms {
        copied.push(term.copy(alloc)?)?;
    }
    Ok(copied)
}
