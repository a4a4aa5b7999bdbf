//! Names, usages and events.
#![tactic(auto, using(crate::proofs::Writing::put_all_append))]

ghost use Rattle.std.specs.Prelude.{◌≡◌, IfOk};
ghost use Rattle.dy_grammar.specs.Parts.{AnId, ANm, AnAtom};
ghost use Rattle.dy_syntax.specs.Meaning.{id_of, nm_of, kind_of, use_of, atom_of};
ghost use Rattle.dy_show.specs.Canonical as c;
ghost use Rattle.dy_show.specs.MirrorPages.{put, put_all};

use crate::lists::{Shown, commas};
use crate::pages::Page;
use dy_syntax::{AtomText, Id, KindText, Nm, UseText};
use std::alloc::AllocError;

impl Shown for Id {
    ghost item = { AnId };

    ghost view = { id_of };

    fn write(&self, page: &mut Page) -> Result<(), AllocError> {
        page.name(self)
    }
}

impl Shown for Nm {
    ghost item = { ANm };

    ghost view = { nm_of };

    fn write(&self, page: &mut Page) -> Result<(), AllocError> {
        match self {
            Nm::Named(id) => page.name(id),
            Nm::Me { .. } => page.word(b"self"),
        }
    }
}

pub(crate) fn kind(page: &mut Page, kind: KindText) -> Result<(), AllocError>
    ensures { IfOk result (λ _. page.new ≡ put page.old (c.kind (kind_of kind))) }
{
    match kind {
        KindText::Nonce => page.word(b"nonce"),
        KindText::Pke => page.word(b"pke"),
        KindText::Sig => page.word(b"sig"),
        KindText::Aead => page.word(b"aead"),
        KindText::Mac => page.word(b"mac"),
        KindText::Kdf => page.word(b"kdf"),
    }
}

#[tactic(auto, unfolding(crate::specs::Canonical::use_text))]
pub(crate) fn use_text(page: &mut Page, usage: &UseText) -> Result<(), AllocError>
    ensures { IfOk result (λ _. page.new ≡ put_all page.old (c.use_text (use_of usage.now))) }
{
    page.name(&usage.usage)?;
    page.mark(b"(")?;
    commas(page, usage.args.as_slice())
}

#[tactic(auto, unfolding(crate::specs::Canonical::atom))]
impl Shown for AtomText {
    ghost item = { AnAtom };

    ghost view = { atom_of };

    fn write(&self, page: &mut Page) -> Result<(), AllocError> {
        page.name(&self.event)?;
        page.mark(b"(")?;
        commas(page, self.args.as_slice())
    }
}
