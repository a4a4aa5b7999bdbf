//! w7, w9 and w10: where words of labels and statements may stand.

ghost use Rattle.std.specs.Prelude.{◌≡◌, map};
ghost use Rattle.dy_syntax.specs.Meaning.{nm_of, label_of, param_of, event_of, expr_of};
ghost use Rattle.dy_syntax.specs.MirrorMeaning.{least_of, where_of};
ghost use Rattle.dy_syntax.specs.MirrorFaults.{note_lines};
ghost use Rattle.dy_syntax.specs.Rules.Words as rule;

use crate::declarations::EventDecl;
use crate::expressions::Expr;
use crate::labels::LabelText;
use crate::least::Least;
use crate::names::Nm;
use crate::scopes::{Where, has_self};

fn has_session(place: &Where) -> bool
    ensures { result ≡ rule.has_session (where_of place.now) }
{
    match place {
        Where::InHandler { .. } => true,
        Where::InState { lasting } => !*lasting,
        _ => false,
    }
}

fn has_here(place: &Where) -> bool
    ensures { result ≡ rule.has_here (where_of place.now) }
{
    match place {
        Where::InState { lasting } => !*lasting,
        _ => false,
    }
}

fn has_versions(place: &Where) -> bool
    ensures { result ≡ rule.has_versions (where_of place.now) }
{
    matches!(place, Where::InHandler { .. })
}

/// A word of a label stands where it has no meaning.
pub(crate) fn note_label_word(place: &Where, word: &LabelText, least: &mut Least)
    ensures { least_of least.new ≡ note_lines 7 (rule.lines_of_label_word (where_of place.now) (label_of word.now))
        (least_of least.old) }
{
    match word {
        LabelText::Session(line) => least.note_if(!has_session(place), 7, *line),
        LabelText::Next(line) => least.note_if(!has_versions(place), 7, *line),
        LabelText::Prior(line) => least.note_if(!has_versions(place), 7, *line),
        LabelText::Here(line) => least.note_if(!has_here(place), 7, *line),
        LabelText::One(Nm::Me { line }) => least.note_if(!has_self(place), 7, *line),
        _ => {}
    }
}

/// `next` stands in a handler without `store`, or `prior` in one without `on`.
pub(crate) fn note_version(place: &Where, word: &LabelText, least: &mut Least)
    ensures { least_of least.new ≡ note_lines 9 (rule.lines_of_version (where_of place.now) (label_of word.now))
        (least_of least.old) }
{
    match (place, word) {
        (Where::InHandler { goes_on: _, stores }, LabelText::Next(line)) => least.note_if(
            !*stores, 9, *line,
        ),
        (Where::InHandler { goes_on, stores: _ }, LabelText::Prior(line)) => least.note_if(
            !*goes_on, 9, *line,
        ),
        _ => {}
    }
}

/// The first parameter of an event is not `name`, or there is none.
pub(crate) fn note_first_param(event: &EventDecl, least: &mut Least)
    ensures { least_of least.new ≡ note_lines 9 (rule.lines_of_first_param (event_of event.now)
        (map param_of event.now.params)) (least_of least.old) }
{
    match event.params.as_slice() {
        [] => least.note(9, event.name.line),
        [first, ..] => least.note_if(!first.is_name, 9, first.name.line),
    }
}

/// The first argument of an event statement is not `self`.
pub(crate) fn note_first_arg(args: &[Nm], least: &mut Least)
    ensures { least_of least.new ≡ note_lines 9 (rule.lines_of_first_arg (map nm_of args.now)) (least_of least.old) }
{
    if let [Nm::Named(id), ..] = args {
        least.note(9, id.line);
    }
}

/// The expression of a `let` is a bare variable or `self`.
pub(crate) fn note_bare(value: &Expr, least: &mut Least)
    ensures { least_of least.new ≡ note_lines 10 (rule.lines_of_bare (expr_of value.now)) (least_of least.old) }
{
    if let Expr::Nm(name) = value {
        least.note(10, name.line());
    }
}
