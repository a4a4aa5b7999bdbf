//! Labels.
#![tactic(auto, using(crate::proofs::Writing::put_all_append), unfolding(crate::specs::Canonical::label))]

ghost use Rattle.std.specs.Prelude.{◌≡◌, IfOk};
ghost use Rattle.dy_syntax.specs.Meaning.{label_of};
ghost use Rattle.dy_show.specs.Canonical as c;
ghost use Rattle.dy_show.specs.MirrorPages.{put_all};

use crate::lists::Shown;
use crate::pages::Page;
use dy_syntax::LabelText;
use std::alloc::AllocError;

pub(crate) fn label(page: &mut Page, text: &LabelText) -> Result<(), AllocError>
    ensures { IfOk result (λ _. page.new ≡ put_all page.old (c.label (label_of text.now))) }
{
    match text {
        LabelText::Public(_) => page.word(b"public"),
        LabelText::Nobody(_) => page.word(b"nobody"),
        LabelText::Session(_) => page.word(b"session"),
        LabelText::Next(_) => page.word(b"next"),
        LabelText::Prior(_) => page.word(b"prior"),
        LabelText::Here(_) => page.word(b"here"),
        LabelText::One(name) => name.write(page),
        LabelText::Join(_, left, right) => {
            page.word(b"join")?;
            page.mark(b"(")?;
            label(page, left)?;
            page.mark(b",")?;
            label(page, right)?;
            page.mark(b")")
        }
        LabelText::Meet(_, left, right) => {
            page.word(b"meet")?;
            page.mark(b"(")?;
            label(page, left)?;
            page.mark(b",")?;
            label(page, right)?;
            page.mark(b")")
        }
    }
}
