ghost use Rattle.std.specs.Prelude.{◌↔◌, ℕ, ◌≤◌, length, map, IsTrue, IfOk};
ghost use Rattle.dy_label.specs.Words.{StaticLabel};
ghost use Rattle.dy_syntax.specs.Meaning.{atom_of, decl_of, event_of, id_of, nm_of};
ghost use Rattle.dy_types.specs.Tables.{HasTable};
ghost use Rattle.dy_typing.specs.Names.{atom_names};
ghost use Rattle.dy_typing.specs.Knowledge as knowledge;
ghost use Rattle.dy_typing.specs.Demands.{PartnerStands, after_demands, partner_demands};
ghost use Rattle.dy_check.specs.Meaning.{setting_of, knowledge_of};
ghost use Rattle.dy_check.specs.Tables.{KnowledgeHasTables};
ghost use Rattle.dy_check.specs.MirrorMembers.{stands_in, owed_in, partners_in};
ghost use Rattle.dy_check.specs.MirrorUnmet.{FindsUnmet, TellsIfMet};
ghost use Rattle.dy_check.specs.Range.{AreShort, EventIsShort};
ghost use Rattle.dy_check.specs.declared.limits.TheConstants.{MAX_MEMBERS};

use crate::conditions::members::Reading;
use crate::conditions::unmet::{PARTNER, Unmet, unless_met};
use crate::knowledge::Knowledge;
use crate::labels::{Naming, label_table};
use crate::settings::Setting;
use crate::stands::{atom_names, event_stands};
use dy_label::Table;
use dy_syntax::{AtomText, EventDecl, Nm, Partner};
use dy_term::Memory;
use std::alloc::Global;

/// Whether an event of a declaration is known to have happened, or else the label of this table is
/// open. It refuses out of memory alone.
pub(crate) fn has_happened(
    alloc: Global,
    known: &Knowledge,
    reading: &Reading<'_>,
    atom: &AtomText,
    unless: &Table,
) -> Result<bool, Memory>
    ensures { IfOk result (λ has. (k : knowledge.Knowledge) (label : StaticLabel) →
        KnowledgeHasTables k (knowledge_of known.now) → HasTable label unless.now → (IsTrue has ↔
        knowledge.Happened k (atom_of atom.now).event.word (atom_names (stands_in reading.now) (atom_of atom.now))
        label)) }
{
    match atom_names(alloc, reading.stands, atom)? {
        None => known.has_happened(alloc, &atom.event.word, None, unless),
        Some(names) => known.has_happened(alloc, &atom.event.word, Some(names.as_slice()), unless),
    }
}

/// Whether a partner has happened, or else its label is open. It refuses out of memory alone.
fn is_partner_met(
    alloc: Global,
    setting: &Setting<'_, '_>,
    known: &Knowledge,
    reading: &Reading<'_>,
    partner: &Partner,
) -> Result<bool, Memory>
    ensures { IfOk result (λ met. (number : ℕ) → TellsIfMet setting.now known.now
        (PartnerStands (owed_in setting.now reading.now number partner.now)) met) }
{
    let naming = Naming::Declaration(setting, reading.stands);
    let unless = label_table(&naming, reading.here, &partner.unless);
    has_happened(alloc, known, reading, &partner.atom, &unless)
}

/// The first of these partners that has not happened. It refuses out of memory alone.
pub(crate) fn unmet_among_partners(
    alloc: Global,
    setting: &Setting<'_, '_>,
    known: &Knowledge,
    reading: &Reading<'_>,
    partners: &[Partner],
) -> Result<Option<Unmet>, Memory>
    requires { length partners.now ≤ MAX_MEMBERS }
    ensures { IfOk result (FindsUnmet setting.now known.now
        (map PartnerStands (partners_in setting.now reading.now partners.now))) }
{
    for at in 0..partners.len() {
        let met = is_partner_met(alloc, setting, known, reading, &partners[at])?;
        if let Some(unmet) = unless_met(met, PARTNER, (at + 1) as u8) {
            return Ok(Some(unmet));
        }
    }
    Ok(None)
}

/// The first partner of an event with these arguments that has not happened. It refuses out of
/// memory alone.
fn unmet_after<'x>(
    alloc: Global,
    setting: &Setting<'_, 'x>,
    known: &Knowledge,
    args: &'x [Nm],
    event: &'x EventDecl,
) -> Result<Option<Unmet>, Memory>
    requires { EventIsShort (event_of event.now) }
    ensures { IfOk result (FindsUnmet setting.now known.now
        (after_demands (setting_of setting.now) (map nm_of args.now) (event_of event.now))) }
{
    let stands = event_stands(alloc, event, args)?;
    let reading = Reading {
        stands: stands.as_slice(),
        here: None,
    };
    let partners = event.after.as_slice();
    unmet_among_partners(alloc, setting, known, &reading, partners)
}

/// The first partner of this event that has not happened. It refuses out of memory alone.
pub(crate) fn unmet_partner<'x>(
    alloc: Global,
    setting: &Setting<'_, 'x>,
    known: &Knowledge,
    atom: &'x AtomText,
) -> Result<Option<Unmet>, Memory>
    requires { AreShort (map decl_of setting.now.cases.now) }
    ensures { IfOk result (FindsUnmet setting.now known.now
        (partner_demands (setting_of setting.now) (atom_of atom.now))) }
{
    match setting.cases.event_named(&atom.event.word) {
        None => Ok(None),
        Some(event) => unmet_after(alloc, setting, known, atom.args.as_slice(), event),
    }
}
