ghost use Rattle.std.specs.Prelude.{◌≡◌, OnOk};
ghost use Rattle.dy_cases.specs.MirrorTables.{with_first};

use dy_term::Memory;
use indexmap::IndexMap;
use std::hash::Hash;

/// Adds a declaration under its name, where none has that name yet, or refuses out of memory.
pub(crate) fn add_first<'a, K: Eq + Hash + Drop, D>(
    table: &mut IndexMap<K, &'a D>,
    name: K,
    declaration: &'a D,
) -> Result<(), Memory>
    ensures { OnOk result (table.new.entries ≡ with_first K.eq table.old.entries name declaration.entry) }
{
    if table.contains_key(&name) {
        return Ok(());
    }
    table.insert(name, declaration)?;
    Ok(())
}
