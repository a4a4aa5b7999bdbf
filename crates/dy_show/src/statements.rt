//! Statements and handlers.
#![tactic(auto, using(crate::proofs::Writing::put_all_append))]

ghost use Rattle.std.specs.Prelude.{◌≡◌, [], ◌∷◌, map, codes, IfOk};
ghost use Rattle.std.specs.Option.{option_map};
ghost use Rattle.dy_grammar.specs.Parts.{APattern, AStatement};
ghost use Rattle.dy_syntax.specs.Statements as s;
ghost use Rattle.dy_syntax.specs.Meaning.{id_of, quote_of, nm_of, use_of, label_of, expr_of, pattern_of, act_of, statement_of, on_part_of, handler_of};
ghost use Rattle.dy_show.specs.Canonical as c;
ghost use Rattle.dy_show.specs.MirrorPages.{put_all};

use crate::expressions::expr;
use crate::labels::label;
use crate::lists::{Shown, all, commas};
use crate::names::use_text;
use crate::pages::Page;
use dy_syntax::{
    Act, Expr, Handler, Id, LabelText, Nm, OnPart, Pattern, Quote, Statement, UseText,
};
use std::alloc::AllocError;

#[tactic(auto, using(crate::proofs::Writing::put_all_append), unfolding(crate::specs::Canonical::pattern_))]
impl Shown for Pattern {
    ghost item = { APattern };

    ghost view = { pattern_of };

    fn write(&self, page: &mut Page) -> Result<(), AllocError> {
        match self {
            Pattern::Bind(name) => page.name(name),
            Pattern::Named { name, .. } => {
                page.word(b"name")?;
                page.name(name)
            }
            Pattern::Equal { to, .. } => {
                page.mark(b"=")?;
                to.write(page)
            }
        }
    }
}

#[tactic(auto, using(crate::proofs::Writing::put_all_append), unfolding(crate::specs::Canonical::act))]
fn new_value(page: &mut Page, name: &Id, usage: &UseText, to: &LabelText) -> Result<(), AllocError>
    ensures { IfOk result (λ _.
        page.new ≡ put_all page.old (c.act (s.New (id_of name.now) (use_of usage.now) (label_of to.now)))) }
{
    page.first_word(b"new")?;
    page.name(name)?;
    page.between(b":")?;
    use_text(page, usage)?;
    page.word(b"secret")?;
    label(page, to)?;
    page.mark(b";")
}

#[tactic(auto, using(crate::proofs::Writing::put_all_append), unfolding(crate::specs::Canonical::act))]
fn let_value(page: &mut Page, name: &Id, value: &Expr) -> Result<(), AllocError>
    ensures { IfOk result (λ _. page.new ≡ put_all page.old (c.act (s.Let (id_of name.now) (expr_of value.now)))) }
{
    page.first_word(b"let")?;
    page.name(name)?;
    page.between(b"=")?;
    expr(page, value)?;
    page.mark(b";")
}

#[tactic(auto, using(crate::proofs::Writing::put_all_append), unfolding(crate::specs::Canonical::act))]
fn store(page: &mut Page, state: &Id, fields: &[Expr]) -> Result<(), AllocError>
    ensures { IfOk result (λ _.
        page.new ≡ put_all page.old (c.act (s.Store (id_of state.now) (map expr_of fields.now)))) }
{
    page.first_word(b"store")?;
    page.name(state)?;
    page.mark(b"(")?;
    commas(page, fields)?;
    page.mark(b";")
}

#[tactic(auto, using(crate::proofs::Writing::put_all_append), unfolding(crate::specs::Canonical::act))]
fn certify(page: &mut Page, key: &Id, usage: &Id) -> Result<(), AllocError>
    ensures { IfOk result (λ _. page.new ≡ put_all page.old (c.act (s.Certify (id_of key.now) (id_of usage.now)))) }
{
    page.first_word(b"certify")?;
    page.name(key)?;
    page.word(b"as")?;
    page.name(usage)?;
    page.mark(b";")
}

#[tactic(auto, using(crate::proofs::Writing::put_all_append), unfolding(crate::specs::Canonical::act))]
fn find(page: &mut Page, usage: &Id, owner: &Nm, name: &Id) -> Result<(), AllocError>
    ensures { IfOk result (λ _.
        page.new ≡ put_all page.old (c.act (s.Find (id_of usage.now) (nm_of owner.now) (id_of name.now)))) }
{
    page.first_word(b"find")?;
    page.name(usage)?;
    page.word(b"of")?;
    owner.write(page)?;
    page.word(b"as")?;
    page.name(name)?;
    page.mark(b";")
}

#[tactic(auto, using(crate::proofs::Writing::put_all_append), unfolding(crate::specs::Canonical::act))]
fn recall(page: &mut Page, state: &Id, pats: &[Pattern]) -> Result<(), AllocError>
    ensures { IfOk result (λ _.
        page.new ≡ put_all page.old (c.act (s.Recall (id_of state.now) (map pattern_of pats.now)))) }
{
    page.first_word(b"use")?;
    page.name(state)?;
    page.mark(b"(")?;
    commas(page, pats)?;
    page.mark(b";")
}

#[tactic(auto, using(crate::proofs::Writing::put_all_append), unfolding(crate::specs::Canonical::act))]
fn split(page: &mut Page, value: &Id, tag: &Quote, pats: &[Pattern]) -> Result<(), AllocError>
    ensures { IfOk result (λ _.
        page.new ≡ put_all page.old (c.act (s.Split (id_of value.now) (quote_of tag.now) (map pattern_of pats.now)))) }
{
    page.first_word(b"split")?;
    page.name(value)?;
    page.word(b"as")?;
    page.text(tag)?;
    page.mark(b"(")?;
    commas(page, pats)?;
    page.mark(b";")
}

/// A value, its key and usage, and a case with patterns for its fields.
#[tactic(auto, using(crate::proofs::Writing::put_all_append), unfolding(crate::specs::Canonical::opened_as))]
fn opened_as(
    page: &mut Page,
    word: &[u8],
    value: &Id,
    key: &Id,
    usage: &UseText,
    tag: &Quote,
    pats: &[Pattern],
) -> Result<(), AllocError>
    ensures { IfOk result (λ _. page.new ≡ put_all page.old (c.opened_as word.now (id_of value.now)
        (id_of key.now) (use_of usage.now) (quote_of tag.now) (map pattern_of pats.now))) }
{
    page.first_word(word)?;
    page.name(value)?;
    page.word(b"with")?;
    page.name(key)?;
    page.word(b"using")?;
    use_text(page, usage)?;
    page.word(b"as")?;
    page.text(tag)?;
    page.mark(b"(")?;
    commas(page, pats)
}

/// A value, and the key and the usage of a mac.
fn mac_by(page: &mut Page, value: &Id, key: &Id, usage: &UseText) -> Result<(), AllocError>
    ensures { IfOk result (λ _. page.new ≡ put_all page.old (c.first_word (codes "check") ∷ c.name (id_of value.now)
        ∷ c.between (codes "=") ∷ c.word (codes "mac") ∷ c.left_paren ∷ c.name (id_of key.now) ∷ c.word (codes "using")
        ∷ c.use_text (use_of usage.now))) }
{
    page.first_word(b"check")?;
    page.name(value)?;
    page.between(b"=")?;
    page.word(b"mac")?;
    page.mark(b"(")?;
    page.name(key)?;
    page.word(b"using")?;
    use_text(page, usage)
}

#[tactic(auto, using(crate::proofs::Writing::put_all_append), unfolding(crate::specs::Canonical::act))]
fn check(
    page: &mut Page,
    value: &Id,
    key: &Id,
    usage: &UseText,
    tag: &Quote,
    args: &[Nm],
) -> Result<(), AllocError>
    ensures { IfOk result (λ _. page.new ≡ put_all page.old (c.act (s.Check (id_of value.now) (id_of key.now)
        (use_of usage.now) (quote_of tag.now) (map nm_of args.now)))) }
{
    mac_by(page, value, key, usage)?;
    page.mark(b",")?;
    page.text(tag)?;
    page.mark(b"(")?;
    commas(page, args)?;
    page.mark(b")")?;
    page.mark(b";")
}

#[tactic(auto, using(crate::proofs::Writing::put_all_append), unfolding(crate::specs::Canonical::act))]
fn same(page: &mut Page, left: &Nm, right: &Nm) -> Result<(), AllocError>
    ensures { IfOk result (λ _. page.new ≡ put_all page.old (c.act (s.Same (nm_of left.now) (nm_of right.now)))) }
{
    page.first_word(b"same")?;
    left.write(page)?;
    right.write(page)?;
    page.mark(b";")
}

#[tactic(auto, using(crate::proofs::Writing::put_all_append), unfolding(crate::specs::Canonical::act))]
fn act(page: &mut Page, act: &Act) -> Result<(), AllocError>
    ensures { IfOk result (λ _. page.new ≡ put_all page.old (c.act (act_of act.now))) }
{
    match act {
        Act::New { name, usage, label } => new_value(page, name, usage, label),
        Act::Let { name, value } => let_value(page, name, value),
        Act::Event(atom) => {
            page.first_word(b"event")?;
            atom.write(page)?;
            page.mark(b";")
        }
        Act::Send(value) => {
            page.first_word(b"send")?;
            expr(page, value)?;
            page.mark(b";")
        }
        Act::Store { state, fields } => store(page, state, fields.as_slice()),
        Act::Certify { key, usage } => certify(page, key, usage),
        Act::Find { usage, owner, name } => find(page, usage, owner, name),
        Act::Recall { state, pats } => recall(page, state, pats.as_slice()),
        Act::Split { value, tag, pats } => split(page, value, tag, pats.as_slice()),
        Act::Popened {
            value,
            key,
            usage,
            tag,
            pats,
        } => {
            opened_as(page, b"popen", value, key, usage, tag, pats.as_slice())?;
            page.mark(b";")
        }
        Act::Verify {
            value,
            key,
            usage,
            tag,
            pats,
        } => {
            opened_as(page, b"verify", value, key, usage, tag, pats.as_slice())?;
            page.mark(b";")
        }
        Act::Opened {
            value,
            key,
            usage,
            tag,
            pats,
            ad,
        } => {
            opened_as(page, b"open", value, key, usage, tag, pats.as_slice())?;
            page.word(b"ad")?;
            expr(page, ad)?;
            page.mark(b";")
        }
        Act::Check {
            value,
            key,
            usage,
            tag,
            args,
        } => check(page, value, key, usage, tag, args.as_slice()),
        Act::Same(left, right) => same(page, left, right),
    }
}

impl Shown for Statement {
    ghost item = { AStatement };

    ghost view = { statement_of };

    fn write(&self, page: &mut Page) -> Result<(), AllocError> {
        act(page, &self.act)
    }
}

/// The state that a handler goes on from, or nothing, and `args`.
#[tactic(auto, using(crate::proofs::Writing::put_all_append), unfolding(crate::specs::Canonical::on_args))]
fn on_args(page: &mut Page, on: &Option<OnPart>) -> Result<(), AllocError>
    ensures { IfOk result (λ _. page.new ≡ put_all page.old (c.on_args (option_map on_part_of on.now))) }
{
    match on {
        None => page.word(b"args"),
        Some(on) => {
            page.word(b"on")?;
            page.name(&on.state)?;
            page.mark(b"(")?;
            commas(page, on.pats.as_slice())?;
            page.word(b"args")
        }
    }
}

/// The message that a handler receives, or nothing, and `{`.
#[tactic(auto, using(crate::proofs::Writing::put_all_append), unfolding(crate::specs::Canonical::recv_open))]
fn recv_open(page: &mut Page, recv: &Option<Id>) -> Result<(), AllocError>
    ensures { IfOk result (λ _. page.new ≡ put_all page.old (c.recv_open (option_map id_of recv.now))) }
{
    match recv {
        None => page.mark(b"{"),
        Some(name) => {
            page.word(b"recv")?;
            page.name(name)?;
            page.mark(b"{")
        }
    }
}

#[tactic(auto, using(crate::proofs::Writing::put_all_append), unfolding(crate::specs::Canonical::handler))]
pub(crate) fn handler(page: &mut Page, handler: &Handler) -> Result<(), AllocError>
    ensures { IfOk result (λ _. page.new ≡ put_all page.old (c.handler (handler_of handler.now))) }
{
    page.line(b"handler")?;
    page.name(&handler.name)?;
    on_args(page, &handler.on)?;
    page.mark(b"(")?;
    commas(page, handler.args.as_slice())?;
    recv_open(page, &handler.recv)?;
    all(page, handler.body.as_slice())?;
    page.last_brace()
}
