ghost use Rattle.std.specs.Prelude.{◌≡◌, ◌-◌};
ghost use Rattle.dy_syntax.specs.Meaning.{label_of};
ghost use Rattle.dy_parse.specs.Limits as limits;
ghost use Rattle.dy_parse.specs.Mirrors.Limits.{first_of, note_all, count_all};

use crate::errors::LimitName;
use crate::limits::counts::{Count, note_count};
use crate::limits::least::First;
use dy_syntax::LabelText;

/// The line of the label's first token.
fn label_line(label: &LabelText) -> u32
    ensures { result ≡ limits.label_line (label_of label.now) }
{
    match label {
        LabelText::Public(line)
        | LabelText::Nobody(line)
        | LabelText::Session(line)
        | LabelText::Next(line)
        | LabelText::Prior(line)
        | LabelText::Here(line)
        | LabelText::Join(line, _, _)
        | LabelText::Meet(line, _, _) => *line,
        LabelText::One(name) => name.line(),
    }
}

/// Counts the words of a label.
#[tactic(auto, using(crate::proofs::LimitLaws::Folds::count_all_append))]
fn count_leaves(label: &LabelText, count: Count) -> Count
    ensures { result ≡ count_all (limits.leaves (label_of label.now)) count }
{
    match label {
        LabelText::Join(_, left, right) | LabelText::Meet(_, left, right) => {
            count_leaves(right, count_leaves(left, count))
        }
        LabelText::Public(line)
        | LabelText::Nobody(line)
        | LabelText::Session(line)
        | LabelText::Next(line)
        | LabelText::Prior(line)
        | LabelText::Here(line) => count.with(*line),
        LabelText::One(name) => count.with(name.line()),
    }
}

/// A label, where so many may still stand inside each other.
#[cycle(label_limits)]
fn note_within(room: usize, label: &LabelText, first: &mut First)
    ensures { first_of first.new ≡ note_all (limits.label_within room (label_of label.now)) (first_of first.old) }
{
    if room == 0 {
        first.note(LimitName::Nesting, label_line(label));
    } else {
        note_inside(room - 1, label, first);
    }
}

#[cycle(label_limits)]
#[tactic(auto, using(crate::proofs::LimitLaws::Folds::note_all_append))]
fn note_inside(room: usize, label: &LabelText, first: &mut First)
    ensures { first_of first.new ≡ note_all (limits.inside_label room (label_of label.now)) (first_of first.old) }
{
    match label {
        LabelText::Join(_, left, right) | LabelText::Meet(_, left, right) => {
            note_within(room, left, first);
            note_within(room, right, first);
        }
        _ => {}
    }
}

/// A label.
#[tactic(auto, using(crate::proofs::LimitLaws::Folds::note_all_append, crate::proofs::LimitLaws::Folds::counted))]
pub(crate) fn note_label(label: &LabelText, first: &mut First)
    ensures { first_of first.new ≡ note_all (limits.excess_in_label (label_of label.now)) (first_of first.old) }
{
    let leaves = count_leaves(label, Count::Room(LimitName::Leaves.most()));
    note_count(LimitName::Leaves, leaves, first);
    note_within(LimitName::Nesting.most(), label, first);
}
