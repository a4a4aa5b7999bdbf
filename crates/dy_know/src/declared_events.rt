ghost use Rattle.std.specs.Prelude.{◌≡◌, map, IfOk};
ghost use Rattle.std.specs.Option.{option_map};
ghost use Rattle.dy_syntax.specs.Meaning.{decl_of, event_of};
ghost use Rattle.dy_know.specs.MirrorEvents.{events_in, event_called};

use crate::copying::event_copy;
use dy_syntax::{Decl, EventDecl};
use dy_term::{Memory, Word};
use std::alloc::Global;

/// Copies of the events that are declared, in order. It refuses out of memory alone.
pub(crate) fn declared_events(alloc: Global, decls: &[Decl]) -> Result<Vec<EventDecl>, Memory>
    ensures { IfOk result (λ events. map event_of events.items ≡ events_in (map decl_of decls.now)) }
{
    let mut events = Vec::new(alloc);
    for decl in decls {
        if let Decl::Event(event) = decl {
            events.push(event_copy(alloc, event)?)?;
        }
    }
    Ok(events)
}

/// The first of the events that has this name.
pub(crate) fn event_called<'a>(events: &'a [EventDecl], name: &Word) -> Option<&'a EventDecl>
    ensures { option_map (λ event. event_of event.now) result ≡ event_called (map event_of events.now) name.now }
{
    for event in events {
        if event.name.word.same(name) {
            return Some(event);
        }
    }
    None
}
