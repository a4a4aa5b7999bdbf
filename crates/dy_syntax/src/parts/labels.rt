ghost use Rattle.std.specs.Prelude.{◌≡◌};
ghost use Rattle.dy_syntax.specs.Meaning.{label_of, file_of};
ghost use Rattle.dy_syntax.specs.MirrorMeaning.{least_of, scope_of};
ghost use Rattle.dy_syntax.specs.MirrorFaults.{note_part, note_parts};
ghost use Rattle.dy_syntax.specs.Parts as parts;

use crate::files::File;
use crate::labels::LabelText;
use crate::least::Least;
use crate::parts::usages::note_name_only;
use crate::rules::words::{note_label_word, note_version};
use crate::scopes::Scope;

#[tactic(auto, unfolding(crate::specs::MirrorFaults::note_part))]
fn note_word(file: &File, scope: &Scope, word: &LabelText, least: &mut Least)
    ensures { least_of least.new ≡ note_part (file_of file.now) (scope_of scope.now)
        (parts.LabelWord (label_of word.now)) (least_of least.old) }
{
    let _ = file;
    note_label_word(&scope.place, word, least);
    note_version(&scope.place, word, least);
}

/// A label.
#[tactic(auto, using(crate::proofs::Noted::note_parts_append))]
pub(crate) fn note_label(file: &File, scope: &Scope, label: &LabelText, least: &mut Least)
    ensures { least_of least.new ≡ note_parts (file_of file.now) (scope_of scope.now)
        (parts.parts_of_label (label_of label.now)) (least_of least.old) }
{
    match label {
        LabelText::Join(_, left, right) => {
            note_label(file, scope, left, least);
            note_label(file, scope, right, least);
        }
        LabelText::Meet(_, left, right) => {
            note_label(file, scope, left, least);
            note_label(file, scope, right, least);
        }
        LabelText::One(name) => {
            note_word(file, scope, label, least);
            note_name_only(file, scope, name, least);
        }
        _ => note_word(file, scope, label, least),
    }
}
