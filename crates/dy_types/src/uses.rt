ghost use Rattle.std.specs.Prelude.{◌≡◌, IfOk};
ghost use Rattle.dy_types.specs.Claims.{is_same_use};
ghost use Rattle.dy_types.specs.Meaning.{use_of};

use dy_term::{Memory, Word};
use sqlite_items::Items;
use std::alloc::Global;

/// A declared usage, for some of the handler's names: these are named by number.
#[derive(Debug, Drop)]
pub struct StaticUse {
    pub usage: Word,
    pub args: Items<u8>,
}

impl StaticUse {
    /// Whether the two are the same usage, for the same names in the same order.
    pub fn same(&self, other: &StaticUse) -> bool
        ensures { result ≡ is_same_use (use_of self.now) (use_of other.now) }
    {
        self.usage.same(&other.usage) && self.args.as_slice() == other.args.as_slice()
    }

    /// An equal usage, in memory of its own. It refuses out of memory alone.
    pub fn copy(&self, alloc: Global) -> Result<StaticUse, Memory>
        ensures { IfOk result (λ usage. usage ≡ self.now) }
    {
        Ok(StaticUse {
            usage: self.usage.copy(),
            args: Items::from_slice(alloc, self.args.as_slice())?,
        })
    }
}
