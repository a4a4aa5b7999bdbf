ghost use Rattle.std.specs.Prelude.{ℕ, ◌≤◌, length, map, IfOk};
ghost use Rattle.dy_syntax.specs.Meaning.{atom_of, case_of, decl_of, use_of};
ghost use Rattle.dy_typing.specs.Demands.{Sealing, EventStands, requirement_of, case_event_demands, event_demands};
ghost use Rattle.dy_check.specs.Meaning.{setting_of};
ghost use Rattle.dy_check.specs.declared.settings.Setting as setting;
ghost use Rattle.dy_check.specs.OperationsMeaning.{operation_of, sealing_in};
ghost use Rattle.dy_check.specs.MirrorMembers.{stands_in, events_in};
ghost use Rattle.dy_check.specs.MirrorUnmet.{FindsUnmet, TellsIfMet, IsSealerTable};
ghost use Rattle.dy_check.specs.Range.{AreShort, CaseIsShort};
ghost use Rattle.dy_check.specs.declared.limits.TheConstants.{MAX_MEMBERS};

use crate::conditions::members::Reading;
use crate::conditions::partners::has_happened;
use crate::conditions::sealing::{is_public, sealer_table};
use crate::conditions::unmet::{EVENT, Unmet, unless_met};
use crate::knowledge::Knowledge;
use crate::operations::{Operation, Seal};
use crate::settings::Setting;
use crate::stands::{case_stands, expr_places};
use dy_label::Table;
use dy_syntax::{AtomText, CaseDecl};
use dy_term::Memory;
use std::alloc::Global;

/// Whether an event that a case requires has happened, or all may seal the tuple. The table is that
/// of who may. It refuses out of memory alone.
fn is_event_met(
    alloc: Global,
    known: &Knowledge,
    reading: &Reading<'_>,
    sealer: &Table,
    atom: &AtomText,
) -> Result<bool, Memory>
    ensures { IfOk result (λ met. (setting : setting.Setting) (sealing : Sealing) (number : ℕ) →
        IsSealerTable setting known.now sealing sealer.now → TellsIfMet setting known.now
        (EventStands sealing (requirement_of (stands_in reading.now) number (atom_of atom.now))) met) }
{
    Ok(has_happened(alloc, known, reading, atom, sealer)? || is_public(sealer))
}

/// The first of these events that has not happened, unless all may seal the tuple. The table is that
/// of who may. It refuses out of memory alone.
fn unmet_among_events(
    alloc: Global,
    known: &Knowledge,
    reading: &Reading<'_>,
    sealer: &Table,
    atoms: &[AtomText],
) -> Result<Option<Unmet>, Memory>
    requires { length atoms.now ≤ MAX_MEMBERS }
    ensures { IfOk result (λ found. (setting : setting.Setting) (sealing : Sealing) →
        IsSealerTable setting known.now sealing sealer.now → FindsUnmet setting known.now
        (map (EventStands sealing) (events_in reading.now atoms.now)) found) }
{
    for at in 0..atoms.len() {
        let met = is_event_met(alloc, known, reading, sealer, &atoms[at])?;
        if let Some(unmet) = unless_met(met, EVENT, (at + 1) as u8) {
            return Ok(Some(unmet));
        }
    }
    Ok(None)
}

/// The first event that a case requires and that has not happened, unless all may seal the tuple. It
/// refuses out of memory alone.
fn unmet_case_event<'x>(
    alloc: Global,
    setting: &Setting<'_, 'x>,
    known: &Knowledge,
    seal: &Seal<'x>,
    case: &'x CaseDecl,
) -> Result<Option<Unmet>, Memory>
    requires { CaseIsShort (case_of case.now) }
    ensures { IfOk result (FindsUnmet setting.now known.now (case_event_demands (setting_of setting.now)
        (sealing_in setting.now seal.now) (use_of seal.now.usage.now).args (case_of case.now))) }
{
    let args = seal.usage.args.as_slice();
    let places = expr_places(alloc, seal.fields)?;
    let stands = case_stands(alloc, setting.cases, args, case, places.as_slice())?;
    let reading = Reading {
        stands: stands.as_slice(),
        here: None,
    };
    let sealer = sealer_table(alloc, setting, known, seal)?;
    let atoms = case.requires_.as_slice();
    unmet_among_events(alloc, known, &reading, &sealer, atoms)
}

/// The first event that the case of what an operation seals requires and that has not happened,
/// unless all may seal the tuple. It refuses out of memory alone.
pub(crate) fn unmet_event<'x>(
    alloc: Global,
    setting: &Setting<'_, 'x>,
    known: &Knowledge,
    operation: &Operation<'x>,
) -> Result<Option<Unmet>, Memory>
    requires { AreShort (map decl_of setting.now.cases.now) }
    ensures { IfOk result (FindsUnmet setting.now known.now
        (event_demands (setting_of setting.now) (operation_of operation.now))) }
{
    let Operation::Seals(seal) = operation else {
        return Ok(None);
    };
    match setting.cases.case_of(&seal.usage.usage.word, seal.tag) {
        None => Ok(None),
        Some(case) => unmet_case_event(alloc, setting, known, seal, case),
    }
}
