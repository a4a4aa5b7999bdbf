ghost use Rattle.std.specs.Prelude.{◌≡◌, ◌<◌, ◌^◌, length};
ghost use Rattle.dy_entry.specs.Summaries.{counts_in};
ghost use Rattle.dy_entry.specs.MirrorCounting.{with_entry, HasRoom};
ghost use Rattle.dy_entry.specs.Meaning.{entry_of, entries_of, counts_of};

use crate::entries::Entry;
use crate::summaries::Counts;
use dy_label::Outcome;

impl Counts {
    const NONE: Counts = Counts {
        total: 0,
        start: 0,
        fresh: 0,
        message: 0,
        state: 0,
        event: 0,
        cert: 0,
        done: 0,
        stopped: 0,
        corrupt: 0,
        forge: 0,
        inject: 0,
        skip: 0,
    };

    /// Counts one more entry.
    fn add(&mut self, entry: &Entry)
        requires { HasRoom (counts_of self.old) }
        ensures { counts_of self.new ≡ with_entry (counts_of self.old) (entry_of entry.now) }
    {
        self.total += 1;
        match entry {
            Entry::Setup(_) => {}
            Entry::Start(..) => self.start += 1,
            Entry::Fresh(..) => self.fresh += 1,
            Entry::Message(..) => self.message += 1,
            Entry::State(..) => self.state += 1,
            Entry::Event(..) => self.event += 1,
            Entry::Cert(..) => self.cert += 1,
            Entry::End(_, Outcome::Done) => self.done += 1,
            Entry::End(_, Outcome::Stopped(_)) => self.stopped += 1,
            Entry::Corrupt(..) => self.corrupt += 1,
            Entry::Forge(_) => self.forge += 1,
            Entry::Inject(..) => self.inject += 1,
            Entry::Skip(_) => self.skip += 1,
        }
    }
}

/// How many entries of each kind there are. The entries are fewer than 2^32.
pub fn counts(entries: &[Entry]) -> Counts
    requires { length entries.now < 2 ^ 32 }
    ensures { counts_of result ≡ counts_in (entries_of entries.now) }
{
    let mut counts = Counts::NONE;
    for entry in entries {
        counts.add(entry);
    }
    counts
}
