//! Expressions.
#![tactic(auto, using(crate::proofs::Writing::put_all_append))]

ghost use Rattle.std.specs.Prelude.{◌≡◌, [], ◌∷◌, ◌++◌, codes, IfOk};
ghost use Rattle.dy_grammar.specs.Parts.{AnExpr};
ghost use Rattle.dy_syntax.specs.Meaning.{nm_of, use_of, quote_of, expr_of, args_of};
ghost use Rattle.dy_show.specs.Canonical as c;
ghost use Rattle.dy_show.specs.MirrorPages.{put_all};

use crate::lists::{Shown, separate};
use crate::names::use_text;
use crate::pages::Page;
use dy_syntax::{Expr, Nm, Quote, Tuple, UseText};
use std::alloc::AllocError;

/// A word, a key and its usage, and a tag.
#[tactic(auto, using(crate::proofs::Writing::put_all_append), unfolding(crate::specs::Canonical::seal))]
fn seal(
    page: &mut Page,
    word: &[u8],
    key: &Nm,
    usage: &UseText,
    tag: &Quote,
) -> Result<(), AllocError>
    ensures { IfOk result (λ _.
        page.new ≡ put_all page.old (c.seal word.now (nm_of key.now) (use_of usage.now) (quote_of tag.now))) }
{
    page.word(word)?;
    page.mark(b"(")?;
    key.write(page)?;
    page.word(b"using")?;
    use_text(page, usage)?;
    page.mark(b",")?;
    page.text(tag)?;
    page.mark(b"(")
}

/// A public key or a verification key.
fn key_of(page: &mut Page, word: &[u8], key: &Nm) -> Result<(), AllocError>
    ensures { IfOk result (λ _.
        page.new ≡ put_all page.old (c.word word.now ∷ c.left_paren ∷ (c.nm (nm_of key.now) ++ c.right_paren ∷ []))) }
{
    page.word(word)?;
    page.mark(b"(")?;
    key.write(page)?;
    page.mark(b")")
}

/// What stands before the input of a derived key.
fn context_of(page: &mut Page, key: &Nm, context: &Quote) -> Result<(), AllocError>
    ensures { IfOk result (λ _. page.new ≡ put_all page.old (c.word (codes "kdf") ∷ c.left_paren
        ∷ (c.nm (nm_of key.now) ++ c.comma ∷ c.text (quote_of context.now) ∷ c.comma ∷ []))) }
{
    page.word(b"kdf")?;
    page.mark(b"(")?;
    key.write(page)?;
    page.mark(b",")?;
    page.text(context)?;
    page.mark(b",")
}

/// The fields of a tuple, and `)`.
#[cycle(expr)]
fn fields(page: &mut Page, tuple: &Tuple) -> Result<(), AllocError>
    ensures { IfOk result (λ _. page.new ≡ put_all page.old (c.exprs (args_of tuple.now))) }
{
    let mut is_first = true;
    for field in &tuple.args {
        separate(page, is_first)?;
        is_first = false;
        expr(page, field)?;
    }
    page.mark(b")")?;
    Ok(())
}

#[cycle(expr)]
#[tactic(auto, using(crate::proofs::Writing::put_all_append), unfolding(crate::specs::Canonical::expr))]
pub(crate) fn expr(page: &mut Page, text: &Expr) -> Result<(), AllocError>
    ensures { IfOk result (λ _. page.new ≡ put_all page.old (c.expr (expr_of text.now))) }
{
    match text {
        Expr::Nm(name) => name.write(page),
        Expr::Lit(quote) => page.text(quote),
        Expr::Tuple(tuple) => {
            page.text(&tuple.tag)?;
            page.mark(b"(")?;
            fields(page, tuple)
        }
        Expr::Pair(_, first, second) => {
            page.word(b"pair")?;
            page.mark(b"(")?;
            expr(page, first)?;
            page.mark(b",")?;
            expr(page, second)?;
            page.mark(b")")
        }
        Expr::Pk(_, key) => key_of(page, b"pk", key),
        Expr::Vk(_, key) => key_of(page, b"vk", key),
        Expr::Penc(_, key, usage, tuple) => {
            seal(page, b"penc", key, usage, &tuple.tag)?;
            fields(page, tuple)?;
            page.mark(b")")?;
            Ok(())
        }
        Expr::Sign(_, key, usage, tuple) => {
            seal(page, b"sign", key, usage, &tuple.tag)?;
            fields(page, tuple)?;
            page.mark(b")")?;
            Ok(())
        }
        Expr::Mac(_, key, usage, tuple) => {
            seal(page, b"mac", key, usage, &tuple.tag)?;
            fields(page, tuple)?;
            page.mark(b")")?;
            Ok(())
        }
        Expr::Aead(_, key, usage, tuple, ad) => {
            seal(page, b"aead", key, usage, &tuple.tag)?;
            fields(page, tuple)?;
            page.mark(b",")?;
            expr(page, ad)?;
            page.mark(b")")?;
            Ok(())
        }
        Expr::Kdf(_, key, context, input) => {
            context_of(page, key, context)?;
            expr(page, input)?;
            page.mark(b")")
        }
        Expr::Hash(_, message) => {
            page.word(b"hash")?;
            page.mark(b"(")?;
            expr(page, message)?;
            page.mark(b")")
        }
    }
}

impl Shown for Expr {
    ghost item = { AnExpr 1 };

    ghost view = { expr_of };

    fn write(&self, page: &mut Page) -> Result<(), AllocError> {
        expr(page, self)
    }
}
