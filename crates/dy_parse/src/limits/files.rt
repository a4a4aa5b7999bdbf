ghost use Rattle.std.specs.Prelude.{◌≡◌, map, OnOk};
ghost use Rattle.std.specs.List.{flat_map};
ghost use Rattle.dy_lex.specs.Tokens.{Piece, piece_of, pieces_of};
ghost use Rattle.dy_syntax.specs.Meaning.{decl_of, file_of};
ghost use Rattle.dy_parse.specs.Limits as limits;
ghost use Rattle.dy_parse.specs.Mirrors.Limits.{first_of, note_all, count_all};

use crate::cursor::text_inside;
use crate::errors::LimitName;
use crate::limits::counts::{Count, note_count};
use crate::limits::least::First;
use crate::limits::members::{Noted, note_each};
use crate::limits::plans::note_plan;
use dy_lex::{Token, TokenKind};
use dy_syntax::{Decl, File};
use std::alloc::{AllocError, Global};

/// A word or a text of too many bytes, on this line.
#[tactic(auto, using(crate::proofs::LimitLaws::Folds::slice_get_map))]
fn note_bytes(which: LimitName, line: u32, bytes: &[u8], first: &mut First)
    ensures { first_of first.new ≡ note_all
        (limits.counts which (limits.lines_of_bytes line bytes.now)) (first_of first.old) }
{
    if bytes.get(which.most()).is_some() {
        first.note(which, line);
    }
}

fn note_token(token: &Token<'_>, first: &mut First)
    ensures { first_of first.new ≡ note_all (limits.excess_in_token (piece_of token.now)) (first_of first.old) }
{
    match token.kind {
        TokenKind::Word => note_bytes(LimitName::Word, token.line, token.text, first),
        TokenKind::Text => note_bytes(LimitName::Text, token.line, text_inside(token.text), first),
        TokenKind::Number | TokenKind::Symbol => {}
    }
}

impl<'a> Noted for Token<'a> {
    ghost Whole = { Piece };

    ghost whole = { piece_of };

    ghost excess = { limits.excess_in_token };

    fn note(&self, first: &mut First) {
        note_token(self, first);
    }
}

/// Takes note of words and texts that are too long.
pub(crate) fn note_tokens(tokens: &[Token<'_>], first: &mut First)
    ensures { first_of first.new
        ≡ note_all (flat_map limits.excess_in_token (pieces_of tokens.now)) (first_of first.old) }
{
    note_each(tokens, first);
}

/// With this declaration, if it is of this sort.
fn count_decl(sort: LimitName, decl: &Decl, count: Count) -> Count
    ensures { result ≡ count_all (limits.lines_of_sort sort (decl_of decl.now)) count }
{
    match (sort, decl) {
        (LimitName::Usages, Decl::Usage(usage)) => count.with(usage.line),
        (LimitName::Cases, Decl::Case(case)) => count.with(case.line),
        (LimitName::Events, Decl::Event(event)) => count.with(event.line),
        (LimitName::States, Decl::State(state)) => count.with(state.line),
        (LimitName::Handlers, Decl::Handler(handler)) => count.with(handler.line),
        _ => count,
    }
}

/// Counts the declarations of this sort.
fn count_sort(sort: LimitName, decls: &[Decl], count: Count) -> Count
    ensures { result ≡ count_all (flat_map (limits.lines_of_sort sort) (map decl_of decls.now)) count }
{
    let mut count = count;
    for decl in decls {
        count = count_decl(sort, decl, count);
    }
    count
}

#[tactic(auto, using(crate::proofs::LimitLaws::Folds::counted))]
fn note_sort(sort: LimitName, decls: &[Decl], first: &mut First)
    ensures { first_of first.new ≡ note_all (limits.counts_declared sort (map decl_of decls.now)) (first_of first.old) }
{
    let count = count_sort(sort, decls, Count::Room(sort.most()));
    note_count(sort, count, first);
}

/// Takes note of the limits that the file breaks, after those that its tokens break.
#[tactic(auto, using(crate::proofs::LimitLaws::Folds::note_all_append))]
pub(crate) fn note_file(alloc: Global, file: &File, first: &mut First) -> Result<(), AllocError>
    ensures { OnOk result
        (first_of first.new ≡ note_all (limits.excess_in_file (file_of file.now)) (first_of first.old)) }
{
    let decls = file.decls.as_slice();
    note_sort(LimitName::Usages, decls, first);
    note_sort(LimitName::Cases, decls, first);
    note_sort(LimitName::Events, decls, first);
    note_sort(LimitName::States, decls, first);
    note_sort(LimitName::Handlers, decls, first);
    note_each(decls, first);
    note_plan(alloc, file.plan.rounds.as_slice(), first)
}
