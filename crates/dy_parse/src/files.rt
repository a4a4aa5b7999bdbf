ghost use Rattle.std.specs.Prelude.{◌≡◌, [], map};
ghost use Rattle.dy_lex.specs.Tokens.{pieces_of};
ghost use Rattle.dy_syntax.specs.Meaning.{decl_of, file_of, plan_of};
ghost use Rattle.dy_grammar.specs.Parts.{AFile, Decls};
ghost use Rattle.dy_grammar.specs.Mirrors.Machine.{at};
ghost use Rattle.dy_grammar.specs.Mirrors.FileReading.{file_at};
ghost use Rattle.dy_parse.specs.Mirrors.Files as mirror;
ghost use Rattle.dy_parse.specs.Mirrors.Gives.{Gives};

use crate::cursor::{Cursor, Fault, is_mark, is_word};
use crate::declarations::decl;
use crate::lists::many;
use dy_lex::Token;
use dy_syntax::{Decl, File, Plan};
use sqlite_items::Items;
use std::alloc::Global;

/// Whether no declaration follows, but the end of the input or a plan.
#[tactic(auto, unfolding(crate::specs::Mirrors::Files::ends_decls))]
fn ends_decls(tokens: &Cursor<'_>) -> bool
    ensures { result ≡ mirror.ends_decls tokens.now }
{
    match tokens.first() {
        Some((token, _)) => is_mark(token, b"") || is_word(token, b"plan"),
        None => false,
    }
}

/// What follows the word `plan`.
fn plan_body<'a>(alloc: Global, tokens: &Cursor<'a>) -> Result<(Plan, Cursor<'a>), Fault>
    ensures { Gives (λ x. (plan_of x.0, x.1)) result (mirror.plan_body tokens.now) }
{
    let (_, rest) = tokens.mark(b"{")?;
    let (rounds, rest) = many(alloc, &rest)?;
    let (_, rest) = rest.mark(b"")?;
    Ok((Plan { rounds }, rest))
}

/// The end of the input, or a plan.
#[tactic(auto, unfolding(crate::specs::Mirrors::Files::plan_at))]
fn plan<'a>(alloc: Global, tokens: &Cursor<'a>) -> Result<(Plan, Cursor<'a>), Fault>
    ensures { Gives (λ x. (plan_of x.0, x.1)) result (mirror.plan_at tokens.now) }
{
    let Some((token, rest)) = tokens.first() else {
        return Err(tokens.fault());
    };
    if is_mark(token, b"") {
        let rounds = Items::new(alloc);
        return Ok((Plan { rounds }, rest));
    }
    if is_word(token, b"plan") {
        return plan_body(alloc, &rest);
    }
    Err(tokens.fault())
}

/// Declarations, and a plan or none, up to the end of the input.
fn decls<'a>(alloc: Global, tokens: &Cursor<'a>) -> Result<((Items<Decl>, Plan), Cursor<'a>), Fault>
    ensures { Gives (λ x. ((map decl_of x.0.0, plan_of x.0.1), x.1)) result (at Decls tokens.now) }
{
    let mut found = Items::new(alloc);
    let mut left = tokens.copy();
    'decls: while !ends_decls(&left) {
        let (decl, rest) = decl(alloc, &left)?;
        found.push(decl)?;
        left = rest;
    }
    let (plan, rest) = plan(alloc, &left)?;
    Ok(((found, plan), rest))
}

/// `dystar 1`, declarations, and a plan or none.
#[tactic(auto, using(dy_grammar::proofs::Stepwise::at_is_by_rules), unfolding(dy_grammar::specs::Grammar::rules))]
fn whole<'a>(alloc: Global, tokens: &Cursor<'a>) -> Result<(File, Cursor<'a>), Fault>
    ensures { Gives (λ x. (file_of x.0, x.1)) result (at AFile tokens.now) }
{
    let Some((token, rest)) = tokens.first() else {
        return Err(tokens.fault());
    };
    if is_word(token, b"dystar") {
        let (_, rest) = rest.this_number(b"1")?;
        let ((decls, plan), rest) = decls(alloc, &rest)?;
        let version = 1;
        let file = File {
            version,
            decls,
            plan,
        };
        return Ok((file, rest));
    }
    Err(tokens.fault())
}

/// The file that the tokens are, the end of the input among them.
#[tactic(auto, unfolding(dy_grammar::specs::Mirrors::FileReading::file_at))]
pub(crate) fn file(alloc: Global, tokens: &[Token<'_>]) -> Result<File, Fault>
    ensures { Gives (λ file. (file_of file, [])) result (file_at (pieces_of tokens.now)) }
{
    let (file, rest) = whole(alloc, &Cursor::new(tokens))?;
    match rest.first() {
        None => Ok(file),
        Some(_) => Err(rest.fault()),
    }
}
