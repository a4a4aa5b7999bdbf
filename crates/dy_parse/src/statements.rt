#![tactic(auto)]

ghost use Rattle.std.specs.Prelude.{◌≡◌, map};
ghost use Rattle.dy_syntax.specs.Meaning.{expr_of, id_of, pattern_of, quote_of, statement_of, use_of};
ghost use Rattle.dy_syntax.specs.Statements as meant;
ghost use Rattle.dy_grammar.specs.Grammar as table;
ghost use Rattle.dy_grammar.specs.Parts.{One, APattern, AStatement};
ghost use Rattle.dy_grammar.specs.Mirrors.Machine.{at, after_first, by_these};
ghost use Rattle.dy_parse.specs.Mirrors.Gives.{Gives};
ghost use Rattle.dy_parse.specs.Mirrors.Statements.{ad_end_at, checked_at, keyed_at, later_rules, last_rules, tagged_at};

use crate::cursor::{Cursor, Fault, is_mark, is_word};
use crate::expressions::{expr, exprs};
use crate::labels::label;
use crate::lists::{Listed, in_parentheses};
use crate::names::{atom, nm, use_text};
use dy_syntax::{Act, Expr, Id, Pattern, Quote, Statement, UseText};
use sqlite_items::Items;
use std::alloc::Global;

impl Listed for Pattern {
    ghost item = { APattern };

    ghost view = { pattern_of };

    #[tactic(auto, using(dy_grammar::proofs::Stepwise::at_is_by_rules), unfolding(dy_grammar::specs::Grammar::rules, dy_grammar::specs::Grammar::item_rules, dy_grammar::specs::Mirrors::Machine::token_at, dy_grammar::specs::Mirrors::Machine::token_value_if))]
    fn read<'a>(_alloc: Global, tokens: &Cursor<'a>) -> Result<(Pattern, Cursor<'a>), Fault> {
        if let Some((token, rest)) = tokens.first() {
            let line = token.line;
            if is_word(token, b"name") {
                let (name, rest) = rest.name()?;
                return Ok((Pattern::Named { line, name }, rest));
            }
            if is_mark(token, b"=") {
                let (to, rest) = nm(&rest)?;
                return Ok((Pattern::Equal { line, to }, rest));
            }
        }
        let (name, rest) = tokens.name()?;
        Ok((Pattern::Bind(name), rest))
    }
}

/// A key, `using`, and its usage.
fn key_and_use<'a>(alloc: Global, tokens: &Cursor<'a>) -> Result<((Id, UseText), Cursor<'a>), Fault>
    ensures { Gives (λ x. ((id_of x.0.0, use_of x.0.1), x.1)) result (keyed_at tokens.now) }
{
    let (key, rest) = tokens.name()?;
    let (_, rest) = rest.word(b"using")?;
    let (usage, rest) = use_text(alloc, &rest)?;
    Ok(((key, usage), rest))
}

/// A tag, and items in parentheses.
fn tag_and_parts<'a, P: Listed>(
    alloc: Global,
    tokens: &Cursor<'a>,
) -> Result<((Quote, Items<P>), Cursor<'a>), Fault>
    ensures { Gives (λ x. ((quote_of x.0.0, map P.view x.0.1), x.1)) result
        (tagged_at P.item tokens.now) }
{
    let (tag, rest) = tokens.text()?;
    let (items, rest) = in_parentheses(alloc, &rest)?;
    Ok(((tag, items), rest))
}

/// `ad`, an expression, and `;`.
fn ad_end<'a>(alloc: Global, tokens: &Cursor<'a>) -> Result<(Expr, Cursor<'a>), Fault>
    ensures { Gives (λ x. (expr_of x.0, x.1)) result (ad_end_at tokens.now) }
{
    let (_, rest) = tokens.word(b"ad")?;
    let (ad, rest) = expr(alloc, 1, &rest)?;
    let (_, rest) = rest.mark(b";")?;
    Ok((ad, rest))
}

/// A fresh value of a usage. Its word is read, on this line.
fn new<'a>(alloc: Global, line: u32, tokens: &Cursor<'a>) -> Result<(Statement, Cursor<'a>), Fault>
    ensures { Gives (λ x. (statement_of x.0, x.1)) result
        (after_first table.does_new line tokens.now) }
{
    let (name, rest) = tokens.name()?;
    let (_, rest) = rest.mark(b":")?;
    let (usage, rest) = use_text(alloc, &rest)?;
    let (_, rest) = rest.word(b"secret")?;
    let (label, rest) = label(alloc, &rest)?;
    let (_, rest) = rest.mark(b";")?;
    let act = Act::New { name, usage, label };
    Ok((Statement { line, act }, rest))
}

/// A variable for an expression. Its word is read, on this line.
fn bind<'a>(alloc: Global, line: u32, tokens: &Cursor<'a>) -> Result<(Statement, Cursor<'a>), Fault>
    ensures { Gives (λ x. (statement_of x.0, x.1)) result
        (after_first table.does_let line tokens.now) }
{
    let (name, rest) = tokens.name()?;
    let (_, rest) = rest.mark(b"=")?;
    let (value, rest) = expr(alloc, 1, &rest)?;
    let (_, rest) = rest.mark(b";")?;
    let act = Act::Let { name, value };
    Ok((Statement { line, act }, rest))
}

/// An event that is triggered. Its word is read, on this line.
fn event<'a>(
    alloc: Global,
    line: u32,
    tokens: &Cursor<'a>,
) -> Result<(Statement, Cursor<'a>), Fault>
    ensures { Gives (λ x. (statement_of x.0, x.1)) result
        (after_first table.does_event line tokens.now) }
{
    let (atom, rest) = atom(alloc, tokens)?;
    let (_, rest) = rest.mark(b";")?;
    let act = Act::Event(atom);
    Ok((Statement { line, act }, rest))
}

/// A message that is sent. Its word is read, on this line.
fn send<'a>(alloc: Global, line: u32, tokens: &Cursor<'a>) -> Result<(Statement, Cursor<'a>), Fault>
    ensures { Gives (λ x. (statement_of x.0, x.1)) result
        (after_first table.does_send line tokens.now) }
{
    let (value, rest) = expr(alloc, 1, tokens)?;
    let (_, rest) = rest.mark(b";")?;
    let act = Act::Send(value);
    Ok((Statement { line, act }, rest))
}

/// A state that is stored. Its word is read, on this line.
fn store<'a>(
    alloc: Global,
    line: u32,
    tokens: &Cursor<'a>,
) -> Result<(Statement, Cursor<'a>), Fault>
    ensures { Gives (λ x. (statement_of x.0, x.1)) result
        (after_first table.does_store line tokens.now) }
{
    let (state, rest) = tokens.name()?;
    let (_, rest) = rest.mark(b"(")?;
    let (fields, rest) = exprs(alloc, 1, &rest)?;
    let (_, rest) = rest.mark(b";")?;
    let act = Act::Store {
        state,
        fields: Items::from_vec(fields),
    };
    Ok((Statement { line, act }, rest))
}

/// A key that is certified. Its word is read, on this line.
fn certify<'a>(line: u32, tokens: &Cursor<'a>) -> Result<(Statement, Cursor<'a>), Fault>
    ensures { Gives (λ x. (statement_of x.0, x.1)) result
        (after_first table.does_certify line tokens.now) }
{
    let (key, rest) = tokens.name()?;
    let (_, rest) = rest.word(b"as")?;
    let (usage, rest) = rest.name()?;
    let (_, rest) = rest.mark(b";")?;
    let act = Act::Certify { key, usage };
    Ok((Statement { line, act }, rest))
}

/// A certified key that is looked up. Its word is read, on this line.
fn find<'a>(line: u32, tokens: &Cursor<'a>) -> Result<(Statement, Cursor<'a>), Fault>
    ensures { Gives (λ x. (statement_of x.0, x.1)) result
        (after_first table.does_find line tokens.now) }
{
    let (usage, rest) = tokens.name()?;
    let (_, rest) = rest.word(b"of")?;
    let (owner, rest) = nm(&rest)?;
    let (_, rest) = rest.word(b"as")?;
    let (name, rest) = rest.name()?;
    let (_, rest) = rest.mark(b";")?;
    let act = Act::Find { usage, owner, name };
    Ok((Statement { line, act }, rest))
}

/// A state that is looked up. Its word is read, on this line.
fn recall<'a>(
    alloc: Global,
    line: u32,
    tokens: &Cursor<'a>,
) -> Result<(Statement, Cursor<'a>), Fault>
    ensures { Gives (λ x. (statement_of x.0, x.1)) result
        (after_first table.does_use line tokens.now) }
{
    let (state, rest) = tokens.name()?;
    let (pats, rest) = in_parentheses(alloc, &rest)?;
    let (_, rest) = rest.mark(b";")?;
    let act = Act::Recall { state, pats };
    Ok((Statement { line, act }, rest))
}

/// A tuple that is taken apart. Its word is read, on this line.
fn split<'a>(
    alloc: Global,
    line: u32,
    tokens: &Cursor<'a>,
) -> Result<(Statement, Cursor<'a>), Fault>
    ensures { Gives (λ x. (statement_of x.0, x.1)) result
        (after_first table.does_split line tokens.now) }
{
    let (value, rest) = tokens.name()?;
    let (_, rest) = rest.word(b"as")?;
    let (tag, rest) = rest.text()?;
    let (pats, rest) = in_parentheses(alloc, &rest)?;
    let (_, rest) = rest.mark(b";")?;
    let act = Act::Split { value, tag, pats };
    Ok((Statement { line, act }, rest))
}

/// A sealed value that is opened. Its word is read, on this line.
fn open<'a>(alloc: Global, line: u32, tokens: &Cursor<'a>) -> Result<(Statement, Cursor<'a>), Fault>
    ensures { Gives (λ x. (statement_of x.0, x.1)) result
        (after_first table.does_open line tokens.now) }
{
    let (value, rest) = tokens.name()?;
    let (_, rest) = rest.word(b"with")?;
    let ((key, usage), rest) = key_and_use(alloc, &rest)?;
    let (_, rest) = rest.word(b"as")?;
    let ((tag, pats), rest) = tag_and_parts(alloc, &rest)?;
    let (ad, rest) = ad_end(alloc, &rest)?;
    let act = Act::Opened {
        value,
        key,
        usage,
        tag,
        pats,
        ad,
    };
    Ok((Statement { line, act }, rest))
}

/// A value under a public key that is opened. Its word is read, on this line.
fn popen<'a>(
    alloc: Global,
    line: u32,
    tokens: &Cursor<'a>,
) -> Result<(Statement, Cursor<'a>), Fault>
    ensures { Gives (λ x. (statement_of x.0, x.1)) result
        (after_first table.does_popen line tokens.now) }
{
    let (value, rest) = tokens.name()?;
    let (_, rest) = rest.word(b"with")?;
    let ((key, usage), rest) = key_and_use(alloc, &rest)?;
    let (_, rest) = rest.word(b"as")?;
    let ((tag, pats), rest) = tag_and_parts(alloc, &rest)?;
    let (_, rest) = rest.mark(b";")?;
    let act = Act::Popened {
        value,
        key,
        usage,
        tag,
        pats,
    };
    Ok((Statement { line, act }, rest))
}

/// A signature that is verified. Its word is read, on this line.
fn verify<'a>(
    alloc: Global,
    line: u32,
    tokens: &Cursor<'a>,
) -> Result<(Statement, Cursor<'a>), Fault>
    ensures { Gives (λ x. (statement_of x.0, x.1)) result
        (after_first table.does_verify line tokens.now) }
{
    let (value, rest) = tokens.name()?;
    let (_, rest) = rest.word(b"with")?;
    let ((key, usage), rest) = key_and_use(alloc, &rest)?;
    let (_, rest) = rest.word(b"as")?;
    let ((tag, pats), rest) = tag_and_parts(alloc, &rest)?;
    let (_, rest) = rest.mark(b";")?;
    let act = Act::Verify {
        value,
        key,
        usage,
        tag,
        pats,
    };
    Ok((Statement { line, act }, rest))
}

/// A code that is compared. Its word is read, on this line.
fn check<'a>(
    alloc: Global,
    line: u32,
    tokens: &Cursor<'a>,
) -> Result<(Statement, Cursor<'a>), Fault>
    ensures { Gives (λ x. (statement_of x.0, x.1)) result
        (after_first table.does_check line tokens.now) }
{
    let (value, rest) = tokens.name()?;
    let (_, rest) = rest.mark(b"=")?;
    let (_, rest) = rest.word(b"mac")?;
    let (_, rest) = rest.mark(b"(")?;
    let (key, rest) = rest.name()?;
    let (_, rest) = rest.word(b"using")?;
    let (usage, rest) = use_text(alloc, &rest)?;
    let (_, rest) = rest.mark(b",")?;
    check_tuple(alloc, line, value, key, usage, &rest)
}

/// The tuple whose code is compared, and the end of the statement.
fn check_tuple<'a>(
    alloc: Global,
    line: u32,
    value: Id,
    key: Id,
    usage: UseText,
    tokens: &Cursor<'a>,
) -> Result<(Statement, Cursor<'a>), Fault>
    ensures { Gives (λ x. (statement_of x.0, x.1)) result
        (checked_at line (id_of value) (id_of key) (use_of usage) tokens.now) }
{
    let (tag, rest) = tokens.text()?;
    let (args, rest) = in_parentheses(alloc, &rest)?;
    let (_, rest) = rest.mark(b")")?;
    let (_, rest) = rest.mark(b";")?;
    let act = Act::Check {
        value,
        key,
        usage,
        tag,
        args,
    };
    Ok((Statement { line, act }, rest))
}

/// Two names that stand for one value. Its word is read, on this line.
fn same<'a>(line: u32, tokens: &Cursor<'a>) -> Result<(Statement, Cursor<'a>), Fault>
    ensures { Gives (λ x. (statement_of x.0, x.1)) result
        (after_first table.does_same line tokens.now) }
{
    let (left, rest) = nm(tokens)?;
    let (right, rest) = nm(&rest)?;
    let (_, rest) = rest.mark(b";")?;
    let act = Act::Same(left, right);
    Ok((Statement { line, act }, rest))
}

/// A statement, by its first word.
fn statement<'a>(alloc: Global, tokens: &Cursor<'a>) -> Result<(Statement, Cursor<'a>), Fault>
    ensures { Gives (λ x. (statement_of x.0, x.1)) result
        (by_these meant.Statement table.statement_rules tokens.now) }
{
    let Some((token, rest)) = tokens.first() else {
        return Err(tokens.fault());
    };
    let line = token.line;
    if is_word(token, b"new") {
        return new(alloc, line, &rest);
    }
    if is_word(token, b"let") {
        return bind(alloc, line, &rest);
    }
    if is_word(token, b"event") {
        return event(alloc, line, &rest);
    }
    if is_word(token, b"send") {
        return send(alloc, line, &rest);
    }
    if is_word(token, b"store") {
        return store(alloc, line, &rest);
    }
    later_statement(alloc, tokens)
}

/// One of the later statements.
fn later_statement<'a>(alloc: Global, tokens: &Cursor<'a>) -> Result<(Statement, Cursor<'a>), Fault>
    ensures { Gives (λ x. (statement_of x.0, x.1)) result
        (by_these meant.Statement later_rules tokens.now) }
{
    let Some((token, rest)) = tokens.first() else {
        return Err(tokens.fault());
    };
    let line = token.line;
    if is_word(token, b"certify") {
        return certify(line, &rest);
    }
    if is_word(token, b"find") {
        return find(line, &rest);
    }
    if is_word(token, b"use") {
        return recall(alloc, line, &rest);
    }
    if is_word(token, b"split") {
        return split(alloc, line, &rest);
    }
    if is_word(token, b"open") {
        return open(alloc, line, &rest);
    }
    last_statement(alloc, tokens)
}

/// One of the last statements.
fn last_statement<'a>(alloc: Global, tokens: &Cursor<'a>) -> Result<(Statement, Cursor<'a>), Fault>
    ensures { Gives (λ x. (statement_of x.0, x.1)) result
        (by_these meant.Statement last_rules tokens.now) }
{
    let Some((token, rest)) = tokens.first() else {
        return Err(tokens.fault());
    };
    let line = token.line;
    if is_word(token, b"popen") {
        return popen(alloc, line, &rest);
    }
    if is_word(token, b"verify") {
        return verify(alloc, line, &rest);
    }
    if is_word(token, b"check") {
        return check(alloc, line, &rest);
    }
    if is_word(token, b"same") {
        return same(line, &rest);
    }
    Err(tokens.fault())
}

impl Listed for Statement {
    ghost item = { AStatement };

    ghost view = { statement_of };

    #[tactic(auto, using(crate::proofs::Grammars::Decls::statements_are))]
    fn read<'a>(alloc: Global, tokens: &Cursor<'a>) -> Result<(Statement, Cursor<'a>), Fault> {
        statement(alloc, tokens)
    }
}
