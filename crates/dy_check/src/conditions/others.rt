ghost use Rattle.std.specs.Prelude.{[], ◌∷◌, map, IfOk};
ghost use Rattle.dy_syntax.specs.Names.{Named};
ghost use Rattle.dy_syntax.specs.Meaning.{act_of, decl_of, expr_of, id_of};
ghost use Rattle.dy_typing.specs.Demands.{Sent, Certifies, sent_demands, other_demands};
ghost use Rattle.dy_check.specs.Meaning.{setting_of};
ghost use Rattle.dy_check.specs.MirrorUnmet.{FindsUnmet, TellsIfMet};
ghost use Rattle.dy_check.specs.Range.{AreShort};

use crate::conditions::partners::unmet_partner;
use crate::conditions::sealing::{implies, is_public};
use crate::conditions::stored::unmet_stored;
use crate::conditions::unmet::{CERTIFIED, SENT, Unmet, unless_met};
use crate::expressions::known_of_expr;
use crate::knowledge::Knowledge;
use crate::labels::name_table;
use crate::settings::Setting;
use crate::stands::NmRef;
use dy_syntax::{Act, Expr, Id};
use dy_term::Memory;
use dy_types::StaticUse;
use sqlite_items::Items;
use std::alloc::Global;

/// Whether all may know what is sent. It refuses out of memory alone.
fn is_sent(
    alloc: Global,
    setting: &Setting<'_, '_>,
    known: &Knowledge,
    value: &Expr,
) -> Result<bool, Memory>
    ensures { IfOk result (TellsIfMet setting.now known.now (Sent (expr_of value.now))) }
{
    let value = known_of_expr(alloc, setting.cases, known, value)?;
    Ok(is_public(&value.hi))
}

/// The demand on what is sent, where it is not met. It refuses out of memory alone.
pub(crate) fn unmet_sent(
    alloc: Global,
    setting: &Setting<'_, '_>,
    known: &Knowledge,
    act: &Act,
) -> Result<Option<Unmet>, Memory>
    ensures { IfOk result (FindsUnmet setting.now known.now (sent_demands (act_of act.now))) }
{
    match act {
        Act::Send(value) => {
            let met = is_sent(alloc, setting, known, value)?;
            Ok(unless_met(met, SENT, 0))
        }
        _ => Ok(None),
    }
}

/// Whether the key has the usage for `self`, and `self` alone has the key. It refuses out of memory
/// alone.
fn is_certified(
    alloc: Global,
    setting: &Setting<'_, '_>,
    known: &Knowledge,
    key: &Id,
    usage: &Id,
) -> Result<bool, Memory>
    ensures { IfOk result (TellsIfMet setting.now known.now (Certifies (Named (id_of key.now))
        (record { usage = (id_of usage.now).word; args = 0 ∷ [] }))) }
{
    let key = known.known_of(alloc, NmRef::Named(key))?;
    let usage = StaticUse {
        usage: usage.word.copy(),
        args: Items::from_slice(alloc, [0].as_slice())?,
    };
    if key.has_use(&usage) {
        Ok(implies(&key.lo, &name_table(Some(0))))
    } else {
        Ok(false)
    }
}

/// The first demand of conditions 6 to 9 that is not met. It refuses out of memory alone.
pub(crate) fn unmet_other<'x>(
    alloc: Global,
    setting: &Setting<'_, 'x>,
    known: &Knowledge,
    act: &'x Act,
) -> Result<Option<Unmet>, Memory>
    requires { AreShort (map decl_of setting.now.cases.now) }
    ensures { IfOk result (FindsUnmet setting.now known.now
        (other_demands (setting_of setting.now) (act_of act.now))) }
{
    match act {
        Act::Event(atom) => unmet_partner(alloc, setting, known, atom),
        Act::Store { state, fields } => {
            unmet_stored(alloc, setting, known, state, fields.as_slice())
        }
        Act::Certify { key, usage } => {
            let met = is_certified(alloc, setting, known, key, usage)?;
            Ok(unless_met(met, CERTIFIED, 0))
        }
        _ => Ok(None),
    }
}
