ghost use Rattle.std.specs.Prelude.{◌≡◌, ◌+◌, ◌<◌, ◌^◌, IfOk};
ghost use Rattle.dy_syntax.specs.Meaning.{label_of, use_of, nm_of};
ghost use Rattle.dy_syntax.specs.Labels as text;
ghost use Rattle.dy_label.specs.Labels as labels;
ghost use Rattle.dy_eval.specs.Readers as readers;
ghost use Rattle.dy_eval.specs.NamesMeaning.{names_of};

use crate::names::Names;
use dy_label::{Kind, Label, Reader, Usage};
use dy_syntax::{LabelText, Nm, UseText};
use dy_term::Memory;

/// The label of the principal that a name stands for.
fn label_for_name(names: &Names, name: &Nm) -> Result<Label, Memory>
    ensures { IfOk result (λ made. made ≡ readers.label_for (names_of names.now) 0 (text.One (nm_of name.now))) }
{
    match names.principal_for(name) {
        Some(principal) => Label::one(names.alloc, Reader::Principal(principal.copy())),
        None => Label::nobody(names.alloc),
    }
}

/// The label of a version of the session.
fn label_of_version(names: &Names, version: u32) -> Result<Label, Memory>
    ensures { IfOk result (λ made.
        made ≡ labels.One (labels.Version names.now.principal names.now.session version)) }
{
    let reader = Reader::Version(names.principal.copy(), names.session, version);
    Label::one(names.alloc, reader)
}

/// The label that a text denotes, where this is the newest version of the session. It refuses out of memory alone.
pub(crate) fn label_for(names: &Names, newest: u32, text: &LabelText) -> Result<Label, Memory>
    requires { newest + 1 < 2 ^ 32 }
    ensures { IfOk result (λ made. made ≡ readers.label_for (names_of names.now) newest (label_of text.now)) }
{
    match text {
        LabelText::Public(_) => Label::public(names.alloc),
        LabelText::Nobody(_) | LabelText::Here(_) => Label::nobody(names.alloc),
        LabelText::Session(_) => {
            let reader = Reader::Session(names.principal.copy(), names.session);
            Label::one(names.alloc, reader)
        }
        LabelText::Next(_) => label_of_version(names, newest + 1),
        LabelText::Prior(_) => label_of_version(names, newest),
        LabelText::One(name) => label_for_name(names, name),
        LabelText::Join(_, left, right) => {
            let first = label_for(names, newest, left)?;
            first.join(label_for(names, newest, right)?)
        }
        LabelText::Meet(_, left, right) => {
            let first = label_for(names, newest, left)?;
            first.meet(label_for(names, newest, right)?)
        }
    }
}

/// The usage that a text denotes, of this kind. It refuses out of memory alone.
pub(crate) fn usage_for(names: &Names, kind: Kind, text: &UseText) -> Result<Usage, Memory>
    ensures { IfOk result (λ made. made ≡ readers.usage_for (names_of names.now) kind (use_of text.now)) }
{
    Ok(Usage {
        kind,
        name: text.usage.word.copy(),
        owners: names.principals_for(text.args.as_slice())?,
    })
}
