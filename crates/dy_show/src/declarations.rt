//! Declarations of usages, cases, events and states.
#![tactic(auto, using(crate::proofs::Writing::put_all_append))]

ghost use Rattle.std.specs.Prelude.{◌≡◌, ◌∷◌, ◌++◌, map, IfOk};
ghost use Rattle.dy_grammar.specs.Parts.{AField, ARow, AParam, APartner};
ghost use Rattle.dy_syntax.specs.Meaning.{label_of, use_of, field_type_of, field_of, row_of, param_of, partner_of, usage_of, case_of, event_of, state_of};
ghost use Rattle.dy_show.specs.Canonical as c;
ghost use Rattle.dy_show.specs.MirrorPages.{put_all};

use crate::labels::label;
use crate::lists::{Shown, all, commas, list_end};
use crate::names::{kind, use_text};
use crate::pages::Page;
use dy_syntax::{
    CaseDecl, EventDecl, Field, FieldType, LabelText, Param, Partner, Row, StateDecl, UsageDecl,
    UseText,
};
use std::alloc::AllocError;

/// A word, a label and a usage.
fn key_type(page: &mut Page, word: &[u8], to: &LabelText, usage: &UseText) -> Result<(), AllocError>
    ensures { IfOk result (λ _.
        page.new ≡ put_all page.old (c.word word.now ∷ (c.label (label_of to.now) ++ c.use_text (use_of usage.now)))) }
{
    page.word(word)?;
    label(page, to)?;
    use_text(page, usage)
}

#[tactic(auto, using(crate::proofs::Writing::put_all_append), unfolding(crate::specs::Canonical::field_type))]
fn field_type(page: &mut Page, text: &FieldType) -> Result<(), AllocError>
    ensures { IfOk result (λ _. page.new ≡ put_all page.old (c.field_type (field_type_of text.now))) }
{
    match text {
        FieldType::Name => page.word(b"name"),
        FieldType::Any => page.word(b"any"),
        FieldType::Upto(to) => {
            page.word(b"upto")?;
            label(page, to)
        }
        FieldType::Secret(to) => {
            page.word(b"secret")?;
            label(page, to)
        }
        FieldType::Key(to, usage) => key_type(page, b"key", to, usage),
        FieldType::Pk(to, usage) => key_type(page, b"pk", to, usage),
        FieldType::Vk(to, usage) => key_type(page, b"vk", to, usage),
    }
}

#[tactic(auto, using(crate::proofs::Writing::put_all_append), unfolding(crate::specs::Canonical::field))]
impl Shown for Field {
    ghost item = { AField };

    ghost view = { field_of };

    fn write(&self, page: &mut Page) -> Result<(), AllocError> {
        page.name(&self.name)?;
        page.mark(b":")?;
        field_type(page, &self.kind)
    }
}

#[tactic(auto, using(crate::proofs::Writing::put_all_append), unfolding(crate::specs::Canonical::row))]
impl Shown for Row {
    ghost item = { ARow };

    ghost view = { row_of };

    fn write(&self, page: &mut Page) -> Result<(), AllocError> {
        page.text(&self.text)?;
        page.mark(b"->")?;
        kind(page, self.kind)?;
        page.name(&self.usage)?;
        page.mark(b";")
    }
}

#[tactic(auto, using(crate::proofs::Writing::put_all_append), unfolding(crate::specs::Canonical::param))]
impl Shown for Param {
    ghost item = { AParam };

    ghost view = { param_of };

    fn write(&self, page: &mut Page) -> Result<(), AllocError> {
        if self.is_name {
            page.word(b"name")?;
            page.name(&self.name)
        } else {
            page.name(&self.name)
        }
    }
}

#[tactic(auto, using(crate::proofs::Writing::put_all_append), unfolding(crate::specs::Canonical::partner))]
impl Shown for Partner {
    ghost item = { APartner };

    ghost view = { partner_of };

    fn write(&self, page: &mut Page) -> Result<(), AllocError> {
        self.atom.write(page)?;
        page.word(b"unless")?;
        label(page, &self.unless)
    }
}

/// A table, where it has rows, and `;`.
#[tactic(auto, using(crate::proofs::Writing::put_all_append, crate::proofs::Writing::table_with_rows), unfolding(crate::specs::Canonical::table))]
fn table(page: &mut Page, rows: &[Row]) -> Result<(), AllocError>
    ensures { IfOk result (λ _. page.new ≡ put_all page.old (c.table (map row_of rows.now))) }
{
    if rows.is_empty() {
        return page.mark(b";");
    }
    page.mark(b"{")?;
    all(page, rows)?;
    page.mark(b"}")?;
    page.mark(b";")?;
    Ok(())
}

#[tactic(auto, using(crate::proofs::Writing::put_all_append), unfolding(crate::specs::Canonical::usage_decl))]
pub(crate) fn usage_decl(page: &mut Page, usage: &UsageDecl) -> Result<(), AllocError>
    ensures { IfOk result (λ _. page.new ≡ put_all page.old (c.usage_decl (usage_of usage.now))) }
{
    page.line(b"usage")?;
    kind(page, usage.kind)?;
    page.name(&usage.name)?;
    page.mark(b"(")?;
    commas(page, usage.params.as_slice())?;
    table(page, usage.rows.as_slice())
}

#[tactic(auto, using(crate::proofs::Writing::put_all_append), unfolding(crate::specs::Canonical::case_decl))]
pub(crate) fn case_decl(page: &mut Page, case: &CaseDecl) -> Result<(), AllocError>
    ensures { IfOk result (λ _. page.new ≡ put_all page.old (c.case_decl (case_of case.now))) }
{
    page.line(b"case")?;
    page.name(&case.usage)?;
    page.text(&case.tag)?;
    page.mark(b"(")?;
    commas(page, case.fields.as_slice())?;
    list_end(page, b"requires", case.requires_.as_slice())
}

#[tactic(auto, using(crate::proofs::Writing::put_all_append), unfolding(crate::specs::Canonical::event_decl))]
pub(crate) fn event_decl(page: &mut Page, event: &EventDecl) -> Result<(), AllocError>
    ensures { IfOk result (λ _. page.new ≡ put_all page.old (c.event_decl (event_of event.now))) }
{
    page.line(b"event")?;
    page.name(&event.name)?;
    page.mark(b"(")?;
    commas(page, event.params.as_slice())?;
    list_end(page, b"after", event.after.as_slice())
}

/// `lasting` or nothing, and `(` after a space.
fn lasting_open(page: &mut Page, lasting: bool) -> Result<(), AllocError>
    ensures { IfOk result (λ _. page.new ≡ put_all page.old (c.lasting_open lasting)) }
{
    if lasting {
        page.word(b"lasting")?;
        page.apart_paren()
    } else {
        page.apart_paren()
    }
}

#[tactic(auto, using(crate::proofs::Writing::put_all_append), unfolding(crate::specs::Canonical::state_decl))]
pub(crate) fn state_decl(page: &mut Page, state: &StateDecl) -> Result<(), AllocError>
    ensures { IfOk result (λ _. page.new ≡ put_all page.old (c.state_decl (state_of state.now))) }
{
    page.line(b"state")?;
    page.name(&state.name)?;
    lasting_open(page, state.lasting)?;
    commas(page, state.fields.as_slice())?;
    list_end(page, b"knows", state.knows.as_slice())
}
