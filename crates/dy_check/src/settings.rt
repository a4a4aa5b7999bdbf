ghost use Rattle.std.specs.Prelude.{◌≡◌, ◌++◌, ◌<◌, length, map, IfOk, OnOk};
ghost use Rattle.std.specs.List.{flat_map};
ghost use Rattle.dy_label.specs.declared.words.TheConstants.{NAMES};
ghost use Rattle.dy_syntax.specs.Meaning.{act_of, handler_of, id_of, pattern_of};
ghost use Rattle.dy_syntax.specs.Scopes.{words_of, handler_names, pattern_names, act_pats};

use crate::stands::{NmRef, number_in};
use dy_cases::Cases;
use dy_label::NAMES;
use dy_syntax::{Act, Handler, Id, Pattern};
use dy_term::{Memory, Word};
use sqlite_items::Items;
use std::alloc::Global;

/// What a handler is checked by: what its file declares, and its names.
#[derive(Drop)]
pub(crate) struct Setting<'s, 'a> {
    pub(crate) cases: &'s Cases<'a>,
    pub(crate) names: Items<Word>,
    ghost few: { length names < NAMES },
}

impl<'s, 'a> Setting<'s, 'a> {
    ghost use Rattle.std.specs.Prelude.{IfSome};
    ghost use Rattle.dy_syntax.specs.Meaning.{decl_of};
    ghost use Rattle.dy_typing.specs.Names as typing;
    ghost use Rattle.dy_check.specs.Meaning.{setting_of, nm_ref_of};
    ghost use Rattle.dy_check.specs.Range.{HasFewNames};

    /// The setting of a handler. It refuses out of memory alone.
    pub(crate) fn of(
        alloc: Global,
        cases: &'s Cases<'a>,
        handler: &Handler,
    ) -> Result<Setting<'s, 'a>, Memory>
        requires { HasFewNames (handler_of handler.now) }
        ensures { IfOk result (λ setting. setting_of setting ≡
            typing.setting_of (map decl_of cases.now) (handler_of handler.now)) }
    {
        Ok(Setting {
            cases,
            names: handler_words(alloc, handler)?,
        })
    }

    /// The number of one of the handler's names, `self` being 0, or `None` for any other word.
    pub(crate) fn name_number(&self, name: NmRef<'_>) -> Option<u8>
        ensures number { result ≡ typing.name_number (setting_of self.now) (nm_ref_of name.entry) }
        ensures within { IfSome result (λ number. number < NAMES) }
    {
        let number = number_in(self.names.as_slice(), name)?;
        Some(number as u8)
    }
}

/// Adds the words of these.
fn add_words(words: &mut Items<Word>, ids: &[Id]) -> Result<(), Memory>
    ensures { OnOk result (words.new ≡ words.old ++ words_of (map id_of ids.now)) }
{
    for id in ids {
        words.push(id.word.copy())?;
    }
    Ok(())
}

/// Adds the words that these patterns bind to names.
fn add_names(words: &mut Items<Word>, pats: &[Pattern]) -> Result<(), Memory>
    ensures { OnOk result (words.new ≡ words.old ++ words_of (flat_map pattern_names (map pattern_of pats.now))) }
{
    for pat in pats {
        if let Pattern::Named { name, .. } = pat {
            words.push(name.word.copy())?;
        }
    }
    Ok(())
}

/// The patterns of a statement.
fn pats_of(act: &Act) -> &[Pattern]
    ensures { map pattern_of result.now ≡ act_pats (act_of act.now) }
{
    match act {
        Act::Recall { pats, .. }
        | Act::Split { pats, .. }
        | Act::Opened { pats, .. }
        | Act::Popened { pats, .. }
        | Act::Verify { pats, .. } => pats.as_slice(),
        _ => &[],
    }
}

/// The words of a handler's names: its arguments, and what its patterns bind to names. It refuses
/// out of memory alone.
fn handler_words(alloc: Global, handler: &Handler) -> Result<Items<Word>, Memory>
    ensures { IfOk result (λ words. words ≡ words_of (handler_names (handler_of handler.now))) }
{
    let mut words = Items::new(alloc);
    add_words(&mut words, handler.args.as_slice())?;
    if let Some(on) = &handler.on {
        add_names(&mut words, on.pats.as_slice())?;
    }
    for statement in handler.body.as_slice() {
        add_names(&mut words, pats_of(&statement.act))?;
    }
    Ok(words)
}
