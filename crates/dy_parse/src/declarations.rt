#![tactic(auto, using(dy_grammar::proofs::Stepwise::at_is_by_rules), unfolding(dy_grammar::specs::Grammar::rules, dy_grammar::specs::Grammar::item_rules))]

ghost use Rattle.std.specs.Prelude.{◌≡◌, ℕ, map};
ghost use Rattle.dy_syntax.specs.Meaning.{field_type_of, field_of, row_of, param_of, partner_of, decl_of};
ghost use Rattle.std.specs.Option.{option_map};
ghost use Rattle.dy_syntax.specs.Meaning.{id_of, label_of, on_part_of, use_of};
ghost use Rattle.dy_syntax.specs.Declarations as meant;
ghost use Rattle.dy_grammar.specs.Grammar as table;
ghost use Rattle.dy_grammar.specs.Terminals.{This};
ghost use Rattle.dy_grammar.specs.Parts.{One, AFieldType, AField, ARow, AParam, APartner, ADecl, ListEnd, TableEnd, LastingOpen, OnArgs, RecvOpen};
ghost use Rattle.dy_grammar.specs.Mirrors.Machine.{at, after_first, by_these, token_at};
ghost use Rattle.dy_parse.specs.Mirrors.Gives.{Gives};
ghost use Rattle.dy_parse.specs.Mirrors.Lists.{label_and_use_at, listing_of};

use crate::cursor::{Cursor, Fault, is_mark, is_word};
use crate::labels::{inner, label};
use crate::lists::{Listed, Rest, commas, in_parentheses, many, read_rest};
use crate::names::{atom, kind, use_text};
use dy_lex::TokenKind;
use dy_syntax::{
    CaseDecl, Decl, EventDecl, Field, FieldType, Handler, Id, LabelText, OnPart, Param, Partner,
    Row, StateDecl, UsageDecl, UseText,
};
use sqlite_items::Items;
use std::alloc::Global;

/// A label, and a usage.
#[tactic(auto)]
fn label_and_use<'a>(
    alloc: Global,
    tokens: &Cursor<'a>,
) -> Result<((LabelText, UseText), Cursor<'a>), Fault>
    ensures { Gives (λ x. ((label_of x.0.0, use_of x.0.1), x.1)) result (label_and_use_at tokens.now) }
{
    let (label, rest) = label(alloc, tokens)?;
    let (usage, rest) = use_text(alloc, &rest)?;
    Ok(((label, usage), rest))
}

/// The type of a field, and the line of its first word.
#[tactic(auto, using(crate::proofs::Grammars::Decls::types_are))]
fn field_type<'a>(
    alloc: Global,
    tokens: &Cursor<'a>,
) -> Result<((FieldType, u32), Cursor<'a>), Fault>
    ensures { Gives (λ x. ((field_type_of x.0.0, x.0.1), x.1)) result
        (at (One AFieldType) tokens.now) }
{
    type_and_line(alloc, tokens)
}

#[tactic(auto)]
fn type_and_line<'a>(
    alloc: Global,
    tokens: &Cursor<'a>,
) -> Result<((FieldType, u32), Cursor<'a>), Fault>
    ensures { Gives (λ x. ((field_type_of x.0.0, x.0.1), x.1)) result
        (by_these (meant.FieldType × ℕ) table.field_type_rules tokens.now) }
{
    let Some((token, rest)) = tokens.first() else {
        return Err(tokens.fault());
    };
    let line = token.line;
    if is_word(token, b"name") {
        return Ok(((FieldType::Name, line), rest));
    }
    if is_word(token, b"any") {
        return Ok(((FieldType::Any, line), rest));
    }
    if is_word(token, b"upto") {
        let (label, rest) = label(alloc, &rest)?;
        return Ok(((FieldType::Upto(label), line), rest));
    }
    if is_word(token, b"secret") {
        let (label, rest) = label(alloc, &rest)?;
        return Ok(((FieldType::Secret(label), line), rest));
    }
    if is_word(token, b"key") {
        let ((label, usage), rest) = label_and_use(alloc, &rest)?;
        return Ok(((FieldType::Key(label, usage), line), rest));
    }
    if is_word(token, b"pk") {
        let ((label, usage), rest) = label_and_use(alloc, &rest)?;
        return Ok(((FieldType::Pk(label, usage), line), rest));
    }
    if is_word(token, b"vk") {
        let ((label, usage), rest) = label_and_use(alloc, &rest)?;
        return Ok(((FieldType::Vk(label, usage), line), rest));
    }
    Err(tokens.fault())
}

impl Listed for Field {
    ghost item = { AField };

    ghost view = { field_of };

    #[tactic(auto, using(dy_grammar::proofs::Stepwise::at_is_single), unfolding(dy_grammar::specs::Grammar::item_rules))]
    fn read<'a>(alloc: Global, tokens: &Cursor<'a>) -> Result<(Field, Cursor<'a>), Fault> {
        let (name, rest) = tokens.name()?;
        let (_, rest) = rest.mark(b":")?;
        let ((kind, kind_line), rest) = field_type(alloc, &rest)?;
        Ok((
            Field {
                name,
                kind,
                kind_line,
            },
            rest,
        ))
    }
}

impl Listed for Row {
    ghost item = { ARow };

    ghost view = { row_of };

    #[tactic(auto, using(dy_grammar::proofs::Stepwise::at_is_single), unfolding(dy_grammar::specs::Grammar::item_rules))]
    fn read<'a>(_alloc: Global, tokens: &Cursor<'a>) -> Result<(Row, Cursor<'a>), Fault> {
        let (text, rest) = tokens.text()?;
        let (_, rest) = rest.mark(b"->")?;
        let ((kind, kind_line), rest) = kind(&rest)?;
        let (usage, rest) = rest.name()?;
        let (_, rest) = rest.mark(b";")?;
        Ok((
            Row {
                text,
                kind,
                kind_line,
                usage,
            },
            rest,
        ))
    }
}

impl Listed for Param {
    ghost item = { AParam };

    ghost view = { param_of };

    #[tactic(auto, using(dy_grammar::proofs::Stepwise::at_is_by_rules), unfolding(dy_grammar::specs::Grammar::rules, dy_grammar::specs::Grammar::item_rules, dy_grammar::specs::Mirrors::Machine::token_at, dy_grammar::specs::Mirrors::Machine::token_value_if))]
    fn read<'a>(_alloc: Global, tokens: &Cursor<'a>) -> Result<(Param, Cursor<'a>), Fault> {
        if let Some((token, rest)) = tokens.first() {
            if is_word(token, b"name") {
                let (name, rest) = rest.name()?;
                return Ok((
                    Param {
                        line: token.line,
                        is_name: true,
                        name,
                    },
                    rest,
                ));
            }
        }
        let (name, rest) = tokens.name()?;
        Ok((
            Param {
                line: name.line,
                is_name: false,
                name,
            },
            rest,
        ))
    }
}

impl Listed for Partner {
    ghost item = { APartner };

    ghost view = { partner_of };

    #[tactic(auto, using(crate::proofs::Grammars::Lists::partner_is))]
    fn read<'a>(alloc: Global, tokens: &Cursor<'a>) -> Result<(Partner, Cursor<'a>), Fault> {
        let (atom, rest) = atom(alloc, tokens)?;
        let (_, rest) = rest.word(b"unless")?;
        let (unless, rest) = inner(alloc, 1, &rest)?;
        Ok((Partner { atom, unless }, rest))
    }
}

/// A table or none, and `;`.
fn table_end<'a>(alloc: Global, tokens: &Cursor<'a>) -> Result<(Items<Row>, Cursor<'a>), Fault>
    ensures { Gives (λ x. (map row_of x.0, x.1)) result (at TableEnd tokens.now) }
{
    let Some((token, rest)) = tokens.first() else {
        return Err(tokens.fault());
    };
    if is_mark(token, b";") {
        return Ok((Items::new(alloc), rest));
    }
    if is_mark(token, b"{") {
        let (rows, rest) = many(alloc, &rest)?;
        let (_, rest) = rest.mark(b";")?;
        return Ok((rows, rest));
    }
    Err(tokens.fault())
}

/// `lasting` or nothing, and `(`.
fn lasting<'a>(tokens: &Cursor<'a>) -> Result<(bool, Cursor<'a>), Fault>
    ensures { Gives (λ x. x) result (at LastingOpen tokens.now) }
{
    let Some((token, rest)) = tokens.first() else {
        return Err(tokens.fault());
    };
    if is_mark(token, b"(") {
        return Ok((false, rest));
    }
    if is_word(token, b"lasting") {
        let (_, rest) = rest.mark(b"(")?;
        return Ok((true, rest));
    }
    Err(tokens.fault())
}

/// The word that begins a list of events.
#[derive(Clone, Copy)]
pub(crate) enum Listing {
    Requires,
    After,
    Knows,
}

/// The line of this word, and what is left after it.
#[tactic(auto)]
fn listing_word<'a>(word: Listing, tokens: &Cursor<'a>) -> Result<(u32, Cursor<'a>), Fault>
    ensures { Gives (λ x. x) result (token_at (This TokenKind.Word (table.listing (listing_of word))) tokens.now) }
{
    match word {
        Listing::Requires => tokens.word(b"requires"),
        Listing::After => tokens.word(b"after"),
        Listing::Knows => tokens.word(b"knows"),
    }
}

/// Nothing, or this word and items with commas between them, and `;`.
#[tactic(auto, using(crate::proofs::Grammars::Lists::list_end_is))]
fn list_end<'a, P: Listed>(
    alloc: Global,
    word: Listing,
    tokens: &Cursor<'a>,
) -> Result<(Items<P>, Cursor<'a>), Fault>
    ensures { Gives (λ x. (map P.view x.0, x.1)) result
        (at (ListEnd (listing_of word) P.item) tokens.now) }
{
    let mut found = Items::new(alloc);
    if let Some(rest) = tokens.after(b";") {
        return Ok((found, rest));
    }
    let (_, rest) = listing_word(word, tokens)?;
    let (first, rest) = P::read(alloc, &rest)?;
    found.push(first)?;
    read_rest(alloc, Rest::Semicolon, found, &rest)
}

/// `on` and the fields of a state, or nothing, and `args`.
fn on_args<'a>(alloc: Global, tokens: &Cursor<'a>) -> Result<(Option<OnPart>, Cursor<'a>), Fault>
    ensures { Gives (λ x. (option_map on_part_of x.0, x.1)) result (at OnArgs tokens.now) }
{
    let Some((token, rest)) = tokens.first() else {
        return Err(tokens.fault());
    };
    let line = token.line;
    if is_word(token, b"args") {
        return Ok((None, rest));
    }
    if is_word(token, b"on") {
        let (state, rest) = rest.name()?;
        let (pats, rest) = in_parentheses(alloc, &rest)?;
        let (_, rest) = rest.word(b"args")?;
        return Ok((Some(OnPart { line, state, pats }), rest));
    }
    Err(tokens.fault())
}

/// `recv` and a name, or nothing, and `{`.
fn recv_open<'a>(tokens: &Cursor<'a>) -> Result<(Option<Id>, Cursor<'a>), Fault>
    ensures { Gives (λ x. (option_map id_of x.0, x.1)) result (at RecvOpen tokens.now) }
{
    let Some((token, rest)) = tokens.first() else {
        return Err(tokens.fault());
    };
    if is_mark(token, b"{") {
        return Ok((None, rest));
    }
    if is_word(token, b"recv") {
        let (name, rest) = rest.name()?;
        let (_, rest) = rest.mark(b"{")?;
        return Ok((Some(name), rest));
    }
    Err(tokens.fault())
}

/// A usage. Its word is read, on this line.
#[tactic(auto)]
fn usage<'a>(alloc: Global, line: u32, tokens: &Cursor<'a>) -> Result<(Decl, Cursor<'a>), Fault>
    ensures { Gives (λ x. (decl_of x.0, x.1)) result
        (after_first table.declares_usage line tokens.now) }
{
    let ((kind, kind_line), rest) = kind(tokens)?;
    let (name, rest) = rest.name()?;
    let (params, rest) = in_parentheses(alloc, &rest)?;
    let (rows, rest) = table_end(alloc, &rest)?;
    let usage = UsageDecl {
        line,
        kind,
        kind_line,
        name,
        params,
        rows,
    };
    Ok((Decl::Usage(usage), rest))
}

/// A case of a usage. Its word is read, on this line.
#[tactic(auto)]
fn case<'a>(alloc: Global, line: u32, tokens: &Cursor<'a>) -> Result<(Decl, Cursor<'a>), Fault>
    ensures { Gives (λ x. (decl_of x.0, x.1)) result
        (after_first table.declares_case line tokens.now) }
{
    let (usage, rest) = tokens.name()?;
    let (tag, rest) = rest.text()?;
    let (fields, rest) = in_parentheses(alloc, &rest)?;
    let (requires_, rest) = list_end(alloc, Listing::Requires, &rest)?;
    let case = CaseDecl {
        line,
        usage,
        tag,
        fields,
        requires_,
    };
    Ok((Decl::Case(case), rest))
}

/// An event. Its word is read, on this line.
#[tactic(auto)]
fn event<'a>(alloc: Global, line: u32, tokens: &Cursor<'a>) -> Result<(Decl, Cursor<'a>), Fault>
    ensures { Gives (λ x. (decl_of x.0, x.1)) result
        (after_first table.declares_event line tokens.now) }
{
    let (name, rest) = tokens.name()?;
    let (params, rest) = in_parentheses(alloc, &rest)?;
    let (after, rest) = list_end(alloc, Listing::After, &rest)?;
    let event = EventDecl {
        line,
        name,
        params,
        after,
    };
    Ok((Decl::Event(event), rest))
}

/// A state. Its word is read, on this line.
#[tactic(auto)]
fn state<'a>(alloc: Global, line: u32, tokens: &Cursor<'a>) -> Result<(Decl, Cursor<'a>), Fault>
    ensures { Gives (λ x. (decl_of x.0, x.1)) result
        (after_first table.declares_state line tokens.now) }
{
    let (name, rest) = tokens.name()?;
    let (lasting, rest) = lasting(&rest)?;
    let (fields, rest) = commas(alloc, &rest)?;
    let (knows, rest) = list_end(alloc, Listing::Knows, &rest)?;
    let state = StateDecl {
        line,
        name,
        lasting,
        fields,
        knows,
    };
    Ok((Decl::State(state), rest))
}

/// A handler. Its word is read, on this line.
#[tactic(auto)]
fn handler<'a>(alloc: Global, line: u32, tokens: &Cursor<'a>) -> Result<(Decl, Cursor<'a>), Fault>
    ensures { Gives (λ x. (decl_of x.0, x.1)) result
        (after_first table.declares_handler line tokens.now) }
{
    let (name, rest) = tokens.name()?;
    let (on, rest) = on_args(alloc, &rest)?;
    let (args, rest) = in_parentheses(alloc, &rest)?;
    let (recv, rest) = recv_open(&rest)?;
    let (body, rest) = many(alloc, &rest)?;
    let handler = Handler {
        line,
        name,
        on,
        args,
        recv,
        body,
    };
    Ok((Decl::Handler(handler), rest))
}

/// A declaration.
pub(crate) fn decl<'a>(alloc: Global, tokens: &Cursor<'a>) -> Result<(Decl, Cursor<'a>), Fault>
    ensures { Gives (λ x. (decl_of x.0, x.1)) result (at (One ADecl) tokens.now) }
{
    let Some((token, rest)) = tokens.first() else {
        return Err(tokens.fault());
    };
    let line = token.line;
    if is_word(token, b"usage") {
        return usage(alloc, line, &rest);
    }
    if is_word(token, b"case") {
        return case(alloc, line, &rest);
    }
    if is_word(token, b"event") {
        return event(alloc, line, &rest);
    }
    if is_word(token, b"state") {
        return state(alloc, line, &rest);
    }
    if is_word(token, b"handler") {
        return handler(alloc, line, &rest);
    }
    Err(tokens.fault())
}
