ghost use Rattle.std.specs.Prelude.{◌≡◌, ◌+◌, ◌++◌, List, OnOk};
ghost use Rattle.dy_label.specs.LabelsMeaning.{places_of};
ghost use Rattle.dy_syntax.specs.Meaning.{event_of};
ghost use Rattle.dy_syntax.specs.Files as files;
ghost use Rattle.dy_entry.specs.Entries as entries;
ghost use Rattle.dy_know.specs.declared.happened.Lack.{Lack};
ghost use Rattle.dy_know.specs.MirrorEvents.{ListsLacks, IsEventAt};

use crate::happened::{Happened, Lack};
use crate::partners::has_partner;
use dy_flat::FlatTerm;
use dy_label::Corruption;
use dy_syntax::EventDecl;
use dy_term::Memory;
use std::alloc::Global;

/// Adds the partners that the event at this index lacks, where these are its declaration, its arguments, and what
/// stands before it. It refuses out of memory alone, or where a number does not fit, and then may have added some.
pub(crate) fn add_lacks(
    alloc: Global,
    lacks: &mut Vec<Lack>,
    index: u32,
    event: &EventDecl,
    args: &[FlatTerm],
    happened: &[Happened],
    corruptions: &[Corruption],
) -> Result<(), Memory>
    ensures ok { OnOk result ((decls : List files.Decl) (T : List entries.Entry) →
        IsEventAt decls T index (event_of event.now) args.now happened.now (places_of corruptions.now) →
        ListsLacks decls T index 0 lacks.old.items → ListsLacks decls T (index + 1) 0 lacks.new.items) }
    ensures extends { (more : List Lack) × (lacks.new.items ≡ lacks.old.items ++ more) }
{
    for (place, partner) in event.after.as_slice().iter().enumerate() {
        let Ok(number) = u32::try_from(place + 1) else {
            return Err(Memory);
        };
        if !has_partner(alloc, event, args, partner, happened, corruptions)? {
            lacks.push(Lack {
                event: index,
                partner: number,
            })?;
        }
    }
    Ok(())
}
