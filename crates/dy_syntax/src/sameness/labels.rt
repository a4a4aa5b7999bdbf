ghost use Rattle.std.specs.Prelude.{◌≡◌, ◌≢◌, true, false};
ghost use Rattle.dy_syntax.specs.Meaning.{label_of};
ghost use Rattle.dy_syntax.specs.SameFiles.{bare_label};

use crate::labels::LabelText;
use crate::sameness::Part;

#[cycle(same_label)]
pub(crate) fn same_label(label: &LabelText, other: &LabelText) -> bool
    ensures same { result ≡ true → bare_label (label_of label.now) ≡ bare_label (label_of other.now) }
    ensures other { result ≡ false → bare_label (label_of label.now) ≢ bare_label (label_of other.now) }
{
    match (label, other) {
        (LabelText::Public(_), LabelText::Public(_))
        | (LabelText::Nobody(_), LabelText::Nobody(_))
        | (LabelText::Session(_), LabelText::Session(_))
        | (LabelText::Next(_), LabelText::Next(_))
        | (LabelText::Prior(_), LabelText::Prior(_))
        | (LabelText::Here(_), LabelText::Here(_)) => true,
        (LabelText::One(name), LabelText::One(other)) => name.same(other),
        (LabelText::Join(_, left, right), LabelText::Join(_, other_left, other_right))
        | (LabelText::Meet(_, left, right), LabelText::Meet(_, other_left, other_right)) => {
            same_label(left, other_left) && same_label(right, other_right)
        }
        _ => false,
    }
}
