ghost use Rattle.std.specs.Prelude.{◌≡◌, ◌<◌, ◌^◌, length};
ghost use Rattle.dy_core.specs.MirrorBooks.{HoldsBook};

use crate::running::Running;
use dy_entry::Entry;
use dy_syntax::File;
use std::alloc::Global;

/// A trace of a protocol file that grows entry by entry. At every moment it is a short interleaving.
#[derive(Drop)]
pub struct Book {
    pub(crate) alloc: Global,
    pub(crate) file: File,
    pub(crate) entries: Vec<Entry>,
    /// The instances that have no End.
    pub(crate) running: Vec<Running>,
    ghost holds: { ∥ HoldsBook file entries running ∥₁ },
    ghost few: { length entries.items < 2 ^ 32 },
}

impl Book {
    ghost use Rattle.dy_syntax.specs.Meaning.{file_of};
    ghost use Rattle.dy_entry.specs.Meaning.{entries_of};
    ghost use Rattle.dy_traces.specs.Steps.{IsShort};
    ghost use Rattle.dy_core.specs.BookMeaning.{trace_of, file_in, IsInterleavingOf};

    /// The trace.
    pub fn entries(&self) -> &[Entry]
        ensures { entries_of result.now ≡ trace_of self.now }
    {
        self.entries.as_slice()
    }

    /// The protocol file.
    pub fn file(&self) -> &File
        ensures { file_of result.now ≡ file_in self.now }
    {
        &self.file
    }

    /// Does nothing. The trace is a short interleaving of the file, and has fewer than 2^32 entries.
    pub fn is_interleaving(&self)
        ensures interleaves { ∥ IsInterleavingOf (file_in self.now) (trace_of self.now) ∥₁ }
        ensures short { IsShort (trace_of self.now) }
        ensures few { length (trace_of self.now) < 2 ^ 32 }
    {}
}
