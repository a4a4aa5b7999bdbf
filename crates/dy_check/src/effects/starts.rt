ghost use Rattle.std.specs.Prelude.{fold, map, IfOk, OnOk, List};
ghost use Rattle.dy_syntax.specs.Meaning.{id_of, handler_of};
ghost use Rattle.dy_typing.specs.Knowledge as typing;
ghost use Rattle.dy_typing.specs.Effects as effects;
ghost use Rattle.dy_typing.specs.Effects.{bind_plain};
ghost use Rattle.dy_check.specs.Meaning.{knowledge_of, setting_of};
ghost use Rattle.dy_check.specs.Tables.{KnowledgeHasTables};

use crate::effects::states::match_state;
use crate::knowledge::Knowledge;
use crate::labels::Version;
use crate::settings::Setting;
use dy_syntax::{Handler, Id};
use dy_term::Memory;
use dy_types::Known;
use std::alloc::Global;

/// Binds these to values that all may know, or refuses out of memory.
fn bind_all(alloc: Global, known: &mut Knowledge, names: &[Id]) -> Result<(), Memory>
    ensures { OnOk result ((k : typing.Knowledge) → KnowledgeHasTables k (knowledge_of known.old) →
        KnowledgeHasTables (fold bind_plain k (map id_of names.now)) (knowledge_of known.new)) }
{
    for name in names {
        known.bind(&name.word, Known::plain(alloc))?;
    }
    Ok(())
}

/// The arguments and the received message of a handler. It refuses out of memory alone.
fn bound_first(alloc: Global, handler: &Handler) -> Result<Knowledge, Memory>
    ensures { IfOk result (λ known. KnowledgeHasTables (effects.bound_first (handler_of handler.now))
        (knowledge_of known)) }
{
    let mut known = Knowledge::self_alone(alloc)?;
    bind_all(alloc, &mut known, handler.args.as_slice())?;
    if let Some(message) = &handler.recv {
        known.bind(&message.word, Known::plain(alloc))?;
    }
    Ok(known)
}

/// What is known at the start of a handler. It is what is known of its arguments and the received
/// message, and then of the state that it goes on from. It refuses out of memory alone.
pub(crate) fn at_start(
    alloc: Global,
    setting: &Setting,
    handler: &Handler,
) -> Result<Knowledge, Memory>
    ensures { IfOk result (λ known. KnowledgeHasTables (effects.at_start (setting_of setting.now)
        (handler_of handler.now)) (knowledge_of known)) }
{
    let mut known = bound_first(alloc, handler)?;
    if let Some(on) = &handler.on {
        let pats = on.pats.as_slice();
        match_state(
            alloc,
            setting,
            &mut known,
            Some(Version::Prior),
            &on.state.word,
            pats,
        )?;
    }
    Ok(known)
}
