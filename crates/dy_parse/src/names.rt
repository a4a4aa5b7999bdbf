#![tactic(auto, using(dy_grammar::proofs::Stepwise::at_is_by_rules), unfolding(dy_grammar::specs::Grammar::rules, dy_grammar::specs::Grammar::item_rules, dy_grammar::specs::Mirrors::Machine::token_at, dy_grammar::specs::Mirrors::Machine::token_value_if))]

ghost use Rattle.std.specs.Prelude.{◌≡◌};
ghost use Rattle.dy_syntax.specs.Names as names;
ghost use Rattle.dy_syntax.specs.Meaning.{id_of, nm_of, kind_of, use_of, atom_of};
ghost use Rattle.dy_grammar.specs.Parts.{One, AnId, ANm, AKind, AUse, AnAtom};
ghost use Rattle.dy_grammar.specs.Mirrors.Machine.{at};
ghost use Rattle.dy_parse.specs.Mirrors.Gives.{Gives};

use crate::cursor::{Cursor, Fault, is_word};
use crate::lists::{Listed, in_parentheses};
use dy_syntax::{AtomText, Id, KindText, Nm, UseText};
use std::alloc::Global;

/// `self`, or a name.
pub(crate) fn nm<'a>(tokens: &Cursor<'a>) -> Result<(Nm, Cursor<'a>), Fault>
    ensures { Gives (λ x. (nm_of x.0, x.1)) result (at (One ANm) tokens.now) }
{
    if let Some((token, rest)) = tokens.first() {
        if is_word(token, b"self") {
            return Ok((Nm::Me { line: token.line }, rest));
        }
    }
    let (id, rest) = tokens.name()?;
    Ok((Nm::Named(id), rest))
}

/// A kind of usages, and the line of its word.
pub(crate) fn kind<'a>(tokens: &Cursor<'a>) -> Result<((KindText, u32), Cursor<'a>), Fault>
    ensures { Gives (λ x. ((kind_of x.0.0, x.0.1), x.1)) result (at (One AKind) tokens.now) }
{
    let Some((token, rest)) = tokens.first() else {
        return Err(tokens.fault());
    };
    let kind = if is_word(token, b"nonce") {
        KindText::Nonce
    } else if is_word(token, b"pke") {
        KindText::Pke
    } else if is_word(token, b"sig") {
        KindText::Sig
    } else if is_word(token, b"aead") {
        KindText::Aead
    } else if is_word(token, b"mac") {
        KindText::Mac
    } else if is_word(token, b"kdf") {
        KindText::Kdf
    } else {
        return Err(tokens.fault());
    };
    Ok(((kind, token.line), rest))
}

impl Listed for Id {
    ghost item = { AnId };

    ghost view = { id_of };

    fn read<'a>(_alloc: Global, tokens: &Cursor<'a>) -> Result<(Id, Cursor<'a>), Fault> {
        tokens.name()
    }
}

impl Listed for Nm {
    ghost item = { ANm };

    ghost view = { nm_of };

    fn read<'a>(_alloc: Global, tokens: &Cursor<'a>) -> Result<(Nm, Cursor<'a>), Fault> {
        nm(tokens)
    }
}

/// A usage with its arguments.
#[tactic(auto, using(dy_grammar::proofs::Stepwise::at_is_single), unfolding(dy_grammar::specs::Grammar::item_rules))]
pub(crate) fn use_text<'a>(
    alloc: Global,
    tokens: &Cursor<'a>,
) -> Result<(UseText, Cursor<'a>), Fault>
    ensures { Gives (λ x. (use_of x.0, x.1)) result (at (One AUse) tokens.now) }
{
    let (usage, rest) = tokens.name()?;
    let (args, rest) = in_parentheses(alloc, &rest)?;
    Ok((UseText { usage, args }, rest))
}

/// An event with its arguments.
#[tactic(auto, using(dy_grammar::proofs::Stepwise::at_is_single), unfolding(dy_grammar::specs::Grammar::item_rules))]
pub(crate) fn atom<'a>(alloc: Global, tokens: &Cursor<'a>) -> Result<(AtomText, Cursor<'a>), Fault>
    ensures { Gives (λ x. (atom_of x.0, x.1)) result (at (One AnAtom) tokens.now) }
{
    let (event, rest) = tokens.name()?;
    let (args, rest) = in_parentheses(alloc, &rest)?;
    Ok((AtomText { event, args }, rest))
}

impl Listed for AtomText {
    ghost item = { AnAtom };

    ghost view = { atom_of };

    fn read<'a>(alloc: Global, tokens: &Cursor<'a>) -> Result<(AtomText, Cursor<'a>), Fault> {
        atom(alloc, tokens)
    }
}
