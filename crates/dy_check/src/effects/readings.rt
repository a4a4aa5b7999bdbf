ghost use Rattle.std.specs.Prelude.{map, OnOk};
ghost use Rattle.dy_syntax.specs.Statements as s;
ghost use Rattle.dy_syntax.specs.Names as n;
ghost use Rattle.dy_syntax.specs.Expressions as e;
ghost use Rattle.dy_syntax.specs.Meaning.{id_of, use_of, quote_of, pattern_of, act_of};
ghost use Rattle.dy_typing.specs.Knowledge as typing;
ghost use Rattle.dy_typing.specs.Effects as effects;
ghost use Rattle.dy_check.specs.Meaning.{knowledge_of, setting_of};
ghost use Rattle.dy_check.specs.MirrorReadings as readings;
ghost use Rattle.dy_check.specs.Tables.{KnowledgeHasTables};

use crate::effects::cases::match_case;
use crate::effects::checks::check_case;
use crate::effects::keys::{by_private_key, by_secret_key, by_verification_key};
use crate::knowledge::Knowledge;
use crate::settings::Setting;
use dy_syntax::{Act, Id, Pattern, Quote, UseText};
use dy_term::Memory;
use std::alloc::Global;

/// After a value is opened with a secret key, its fields are matched. It refuses out of memory alone.
fn after_open(
    alloc: Global,
    setting: &Setting,
    known: &mut Knowledge,
    key: &Id,
    usage: &UseText,
    tag: &Quote,
    pats: &[Pattern],
) -> Result<(), Memory>
    ensures { OnOk result ((k : typing.Knowledge) (value : n.Id) (ad : e.Expr) →
        KnowledgeHasTables k (knowledge_of known.old) →
        KnowledgeHasTables (effects.after (setting_of setting.now) k (s.Opened value (id_of key.now) (use_of usage.now)
        (quote_of tag.now) (map pattern_of pats.now) ad)) (knowledge_of known.new)) }
{
    let opening = by_secret_key(alloc, known, key, pats)?;
    match_case(alloc, setting, known, &opening, usage, &tag.text, pats)
}

/// After a value is opened with the key of a public key, its fields are matched. It refuses out of
/// memory alone.
fn after_popen(
    alloc: Global,
    setting: &Setting,
    known: &mut Knowledge,
    key: &Id,
    usage: &UseText,
    tag: &Quote,
    pats: &[Pattern],
) -> Result<(), Memory>
    ensures { OnOk result ((k : typing.Knowledge) (value : n.Id) → KnowledgeHasTables k (knowledge_of known.old) →
        KnowledgeHasTables (effects.after (setting_of setting.now) k (s.Popened value (id_of key.now) (use_of usage.now)
        (quote_of tag.now) (map pattern_of pats.now))) (knowledge_of known.new)) }
{
    let opening = by_private_key(alloc, known, key, pats)?;
    match_case(alloc, setting, known, &opening, usage, &tag.text, pats)
}

/// After a value is verified, its fields are matched. It refuses out of memory alone.
fn after_verify(
    alloc: Global,
    setting: &Setting,
    known: &mut Knowledge,
    value: &Id,
    key: &Id,
    usage: &UseText,
    tag: &Quote,
    pats: &[Pattern],
) -> Result<(), Memory>
    ensures { OnOk result ((k : typing.Knowledge) → KnowledgeHasTables k (knowledge_of known.old) →
        KnowledgeHasTables (effects.after (setting_of setting.now) k (s.Verify (id_of value.now) (id_of key.now)
        (use_of usage.now) (quote_of tag.now) (map pattern_of pats.now))) (knowledge_of known.new)) }
{
    let opening = by_verification_key(alloc, setting, known, value, key, usage)?;
    match_case(alloc, setting, known, &opening, usage, &tag.text, pats)
}

/// What is known after a statement that opens, verifies or checks a value; any other changes nothing
/// here. It refuses out of memory alone.
pub(crate) fn after_reading(
    alloc: Global,
    setting: &Setting,
    known: &mut Knowledge,
    act: &Act,
) -> Result<(), Memory>
    ensures { OnOk result ((k : typing.Knowledge) → KnowledgeHasTables k (knowledge_of known.old) →
        KnowledgeHasTables (readings.after_reading (setting_of setting.now) k (act_of act.now))
        (knowledge_of known.new)) }
{
    match act {
        Act::Check {
            key,
            usage,
            tag,
            args,
            ..
        } => check_case(alloc, setting, known, key, usage, tag, args.as_slice()),
        Act::Opened {
            key,
            usage,
            tag,
            pats,
            ..
        } => after_open(alloc, setting, known, key, usage, tag, pats.as_slice()),
        Act::Popened {
            key,
            usage,
            tag,
            pats,
            ..
        } => after_popen(alloc, setting, known, key, usage, tag, pats.as_slice()),
        Act::Verify {
            value,
            key,
            usage,
            tag,
            pats,
        } => after_verify(
            alloc,
            setting,
            known,
            value,
            key,
            usage,
            tag,
            pats.as_slice(),
        ),
        _ => Ok(()),
    }
}
