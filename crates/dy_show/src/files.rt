//! Whole files.
#![tactic(auto, using(crate::proofs::Writing::put_all_append))]

ghost use Rattle.std.specs.Prelude.{◌≡◌, IfOk};
ghost use Rattle.dy_grammar.specs.Parts.{ADecl};
ghost use Rattle.dy_syntax.specs.Meaning.{decl_of, file_of};
ghost use Rattle.dy_show.specs.Canonical as c;
ghost use Rattle.dy_show.specs.MirrorPages.{put_all};

use crate::declarations::{case_decl, event_decl, state_decl, usage_decl};
use crate::lists::{Shown, all};
use crate::pages::Page;
use crate::plans::rounds;
use crate::statements::handler;
use dy_syntax::{Decl, File};
use dy_term::Memory;
use std::alloc::{AllocError, Global};

#[tactic(auto, using(crate::proofs::Writing::put_all_append), unfolding(crate::specs::Canonical::decl))]
impl Shown for Decl {
    ghost item = { ADecl };

    ghost view = { decl_of };

    fn write(&self, page: &mut Page) -> Result<(), AllocError> {
        match self {
            Decl::Usage(usage) => usage_decl(page, usage),
            Decl::Case(case) => case_decl(page, case),
            Decl::Event(event) => event_decl(page, event),
            Decl::State(state) => state_decl(page, state),
            Decl::Handler(other) => handler(page, other),
        }
    }
}

#[tactic(auto, using(crate::proofs::Writing::put_all_append), unfolding(crate::specs::Canonical::file))]
fn whole(page: &mut Page, file: &File) -> Result<(), AllocError>
    ensures { IfOk result (λ _. page.new ≡ put_all page.old (c.file (file_of file.now))) }
{
    page.word(b"dystar")?;
    page.number(u32::from(file.version))?;
    all(page, file.decls.as_slice())?;
    rounds(page, file.plan.rounds.as_slice())
}

/// The canonical text of a file, which ends with a newline. The one refusal is out of memory.
#[tactic(auto, using(crate::proofs::Writing::bytes_are))]
pub fn show(alloc: Global, file: &File) -> Result<Vec<u8>, Memory>
    ensures { IfOk result (λ text. text.items ≡ c.canon (file_of file.now)) }
{
    let mut page = Page::new(alloc);
    whole(&mut page, file)?;
    let mut text = page.into_bytes();
    text.extend_from_slice(b"\n")?;
    Ok(text)
}
