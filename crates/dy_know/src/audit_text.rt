//! The text of a report.
ghost use Rattle.std.specs.Prelude.{◌≡◌, ◌++◌, IfOk};
ghost use Rattle.std.specs.List.{flat_map};
ghost use Rattle.dy_know.specs.ReportMeaning.{known_of, breach_of, report_of};
ghost use Rattle.dy_know.specs.AuditText.{known_line, nonce_line, event_line, breach_line, count_line, audit_text};
ghost use Rattle.dy_recipe.specs.Meaning.{recipe_of};

use crate::move_text::put_moves;
use crate::reports::{Breach, KnownFrom, Report};
use dy_recipe::Recipe;
use dy_term::Memory;
use std::alloc::Global;

fn put_known(alloc: Global, text: &mut Vec<u8>, known: &KnownFrom) -> Result<(), Memory>
    ensures { IfOk result (λ _. text.new.items ≡ text.old.items ++ known_line (known_of known.now)) }
{
    let KnownFrom { nonce, from } = known;
    let line = format!(in alloc; "known {nonce} from {from}\n")?;
    Ok(text.extend_from_slice(line.as_bytes())?)
}

fn put_nonce(
    alloc: Global,
    text: &mut Vec<u8>,
    nonce: u32,
    from: u32,
    recipe: &Recipe,
) -> Result<(), Memory>
    ensures { IfOk result (λ _. text.new.items
        ≡ text.old.items ++ nonce_line nonce from (recipe_of recipe.now)) }
{
    let begin = format!(in alloc; "breach nonce {nonce} from {from} by ")?;
    text.extend_from_slice(begin.as_bytes())?;
    put_moves(alloc, text, recipe)?;
    Ok(text.extend_from_slice(b"\n")?)
}

fn put_event(alloc: Global, text: &mut Vec<u8>, event: u32, partner: u32) -> Result<(), Memory>
    ensures { IfOk result (λ _. text.new.items ≡ text.old.items ++ event_line event partner) }
{
    let line = format!(in alloc; "breach event {event} partner {partner}\n")?;
    Ok(text.extend_from_slice(line.as_bytes())?)
}

fn put_breach(alloc: Global, text: &mut Vec<u8>, breach: &Breach) -> Result<(), Memory>
    ensures { IfOk result (λ _. text.new.items ≡ text.old.items ++ breach_line (breach_of breach.now)) }
{
    match breach {
        Breach::Nonce {
            nonce,
            from,
            recipe,
        } => put_nonce(alloc, text, *nonce, *from, recipe),
        Breach::Event { event, partner } => put_event(alloc, text, *event, *partner),
    }
}

fn put_all_known(alloc: Global, text: &mut Vec<u8>, known: &[KnownFrom]) -> Result<(), Memory>
    ensures { IfOk result (λ _. text.new.items
        ≡ text.old.items ++ flat_map (λ item. known_line (known_of item)) known.now) }
{
    for item in known {
        put_known(alloc, text, item)?;
    }
    Ok(())
}

fn put_breaches(alloc: Global, text: &mut Vec<u8>, breaches: &[Breach]) -> Result<(), Memory>
    ensures { IfOk result (λ _. text.new.items
        ≡ text.old.items ++ flat_map (λ breach. breach_line (breach_of breach)) breaches.now) }
{
    for breach in breaches {
        put_breach(alloc, text, breach)?;
    }
    Ok(())
}

fn put_count(alloc: Global, text: &mut Vec<u8>, breaches: usize) -> Result<(), Memory>
    ensures { IfOk result (λ _. text.new.items ≡ text.old.items ++ count_line breaches) }
{
    let line = format!(in alloc; "breaches {breaches}\n")?;
    Ok(text.extend_from_slice(line.as_bytes())?)
}

/// The text of a report: a line for each nonce that is known and for each breach, in order, and last one with the
/// number of breaches. The one refusal is out of memory.
pub fn write_audit(alloc: Global, report: &Report) -> Result<Vec<u8>, Memory>
    ensures { IfOk result (λ text. text.items ≡ audit_text (report_of report.now)) }
{
    let mut text = Vec::new(alloc);
    put_all_known(alloc, &mut text, report.known.as_slice())?;
    put_breaches(alloc, &mut text, report.breaches.as_slice())?;
    put_count(alloc, &mut text, report.breaches.len())?;
    Ok(text)
}
