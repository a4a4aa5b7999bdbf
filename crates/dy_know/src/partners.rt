ghost use Rattle.std.specs.Prelude.{◌≡◌, ◌≢◌, List, true, false, IfOk};
ghost use Rattle.std.specs.Option.{option_copied};
ghost use Rattle.dy_label.specs.LabelsMeaning.{places_of};
ghost use Rattle.dy_syntax.specs.Meaning.{nm_of, atom_of, label_of, partner_of, event_of};
ghost use Rattle.dy_syntax.specs.Labels as text;
ghost use Rattle.dy_sound.specs.Words as words;
ghost use Rattle.dy_sound.specs.Words.{event_words, args_meant};
ghost use Rattle.dy_know.specs.MirrorEvents.{IsNamed, HasHappenedAmong, HasPartnerAmong};

use crate::happened::Happened;
use dy_flat::{FlatTerm, Shape, same, shape};
use dy_label::{Corruption, Label, Reader, is_open};
use dy_syntax::{AtomText, EventDecl, LabelText, Nm, Partner};
use dy_term::{Memory, sameness_is_equality};
use std::alloc::Global;

/// The value of a word of an event's declaration, where these are the event's arguments: the argument that has the
/// place of the parameter of this name.
fn value_meant<'a>(event: &EventDecl, args: &'a [FlatTerm], name: &Nm) -> Option<&'a FlatTerm>
    ensures { option_copied result ≡ words.value_meant (event_words (event_of event.now) args.now) (nm_of name.now) }
{
    let Nm::Named(id) = name else {
        return None;
    };
    let params = event.params.as_slice();
    for i in 0..params.len().min(args.len()) {
        if id.word.same(&params[i].name.word) {
            return Some(&args[i]);
        }
    }
    None
}

/// The label that a name stands for: that of the principal whose name its value is.
fn label_of_name(
    alloc: Global,
    event: &EventDecl,
    args: &[FlatTerm],
    name: &Nm,
) -> Result<Label, Memory>
    ensures { IfOk result (λ label.
        label ≡ words.label_meant (event_words (event_of event.now) args.now) (text.One (nm_of name.now))) }
{
    let Some(value) = value_meant(event, args, name) else {
        return Label::nobody(alloc);
    };
    match shape(value.whole()) {
        Shape::Name(principal) => Label::one(alloc, Reader::Principal(principal.copy())),
        _ => Label::nobody(alloc),
    }
}

/// The label that a label of an event's declaration stands for, where these are the event's arguments. It refuses out of
/// memory alone.
fn label_meant(
    alloc: Global,
    event: &EventDecl,
    args: &[FlatTerm],
    text: &LabelText,
) -> Result<Label, Memory>
    ensures { IfOk result (λ label.
        label ≡ words.label_meant (event_words (event_of event.now) args.now) (label_of text.now)) }
{
    match text {
        LabelText::Public(_) => Label::public(alloc),
        LabelText::Nobody(_)
        | LabelText::Session(_)
        | LabelText::Next(_)
        | LabelText::Prior(_)
        | LabelText::Here(_) => Label::nobody(alloc),
        LabelText::One(name) => label_of_name(alloc, event, args, name),
        LabelText::Join(_, left, right) => {
            let first = label_meant(alloc, event, args, left)?;
            first.join(label_meant(alloc, event, args, right)?)
        }
        LabelText::Meet(_, left, right) => {
            let first = label_meant(alloc, event, args, left)?;
            first.meet(label_meant(alloc, event, args, right)?)
        }
    }
}

/// Whether the word stands for this value.
fn stands_for(event: &EventDecl, args: &[FlatTerm], name: &Nm, value: &FlatTerm) -> bool
    ensures { IsNamed result (words.value_meant (event_words (event_of event.now) args.now) (nm_of name.now)) value.now }
{
    match value_meant(event, args, name) {
        Some(meant) => same_term(meant, value),
        None => false,
    }
}

/// Whether the two are the same term.
fn same_term(first: &FlatTerm, second: &FlatTerm) -> bool
    ensures same { result ≡ true → first.now ≡ second.now }
    ensures other { result ≡ false → first.now ≢ second.now }
{
    sameness_is_equality();
    same(first.whole(), second.whole())
}

/// Whether the event that has happened is this one, whose words stand for what the event's arguments give.
fn is_event(event: &EventDecl, args: &[FlatTerm], atom: &AtomText, happened: &Happened) -> bool
    ensures { IsNamed result (args_meant (event_words (event_of event.now) args.now) (atom_of atom.now)) happened.now.args }
{
    let wanted = atom.args.as_slice();
    let given = happened.args.as_slice();
    if wanted.len() != given.len() {
        return false;
    }
    for i in 0..wanted.len() {
        if !stands_for(event, args, &wanted[i], &given[i]) {
            return false;
        }
    }
    true
}

/// Whether one of the events that have happened is this one.
fn has_happened(
    event: &EventDecl,
    args: &[FlatTerm],
    atom: &AtomText,
    happened: &[Happened],
) -> bool
    ensures yes { result ≡ true → HasHappenedAmong happened.now (event_words (event_of event.now) args.now) (atom_of atom.now) }
    ensures no { result ≡ false → HasHappenedAmong happened.now (event_words (event_of event.now) args.now) (atom_of atom.now)
        → ⊥ }
{
    for one in happened {
        if one.name.same(&atom.event.word) && is_event(event, args, atom, one) {
            return true;
        }
    }
    false
}

/// Whether the partner of an event's declaration is there: its event has happened, or its label is open. It refuses out
/// of memory alone.
pub(crate) fn has_partner(
    alloc: Global,
    event: &EventDecl,
    args: &[FlatTerm],
    partner: &Partner,
    happened: &[Happened],
    corruptions: &[Corruption],
) -> Result<bool, Memory>
    ensures yes { IfOk result (λ there. there ≡ true → HasPartnerAmong happened.now (places_of corruptions.now)
        (event_words (event_of event.now) args.now) (partner_of partner.now)) }
    ensures no { IfOk result (λ there. there ≡ false → HasPartnerAmong happened.now (places_of corruptions.now)
        (event_words (event_of event.now) args.now) (partner_of partner.now) → ⊥) }
{
    if has_happened(event, args, &partner.atom, happened) {
        return Ok(true);
    }
    let label = label_meant(alloc, event, args, &partner.unless)?;
    Ok(is_open(&label, corruptions))
}
