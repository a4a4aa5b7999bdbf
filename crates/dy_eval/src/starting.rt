ghost use Rattle.std.specs.Prelude.{◌≡◌, ◌≤◌, ◌++◌, map, IfOk};
ghost use Rattle.std.specs.Option.{option_copied, option_to_list};
ghost use Rattle.dy_syntax.specs.Meaning.{decl_of, handler_of, id_of, act_of, statement_of, on_part_of};
ghost use Rattle.dy_eval.specs.Lines as lines;
ghost use Rattle.dy_eval.specs.Starts.{names_written, message_written};
ghost use Rattle.dy_eval.specs.LineMeaning.{line_of};

use crate::copying::{act_copy, on_part_copy};
use crate::lines::Line;
use crate::written::Written;
use dy_cases::kind_of;
use dy_flat::{FlatTerm, name};
use dy_label::Kind;
use dy_syntax::{Act, Decl, Handler, Id, usage_named};
use dy_term::{Memory, Word};
use sqlite_items::Items;
use std::alloc::Global;

/// The kind of a usage, and of one that is not declared that of nonces.
fn kind_of_usage(decls: &[Decl], usage: &Word) -> Kind
    ensures { result ≡ lines.kind_of_usage (map decl_of decls.now) usage.now }
{
    match usage_named(decls, usage) {
        Some(declared) => kind_of(declared.kind),
        None => Kind::Nonce,
    }
}

/// The kind of the usage that a statement names, if it names one.
fn kind_in(decls: &[Decl], act: &Act) -> Kind
    ensures { result ≡ lines.kind_in (map decl_of decls.now) (act_of act.now) }
{
    match act {
        Act::New { usage, .. } => kind_of_usage(decls, &usage.usage.word),
        Act::Certify { usage, .. } => kind_of_usage(decls, &usage.word),
        _ => Kind::Nonce,
    }
}

/// The line of the state that a handler goes on from, if it does. It refuses out of memory alone.
fn first_lines(alloc: Global, handler: &Handler) -> Result<Items<Line>, Memory>
    ensures { IfOk result (λ made.
        map line_of made ≡ map lines.GoesOn (option_to_list (handler_of handler.now).on)) }
{
    let mut made = Items::new(alloc);
    if let Some(on) = &handler.on {
        made.push(Line::GoesOn(on_part_copy(alloc, on)?))?;
    }
    Ok(made)
}

/// The lines of a handler. It refuses out of memory alone.
pub(crate) fn lines_of(
    alloc: Global,
    decls: &[Decl],
    handler: &Handler,
) -> Result<Items<Line>, Memory>
    ensures { IfOk result (λ made.
        map line_of made ≡ lines.lines_of (map decl_of decls.now) (handler_of handler.now)) }
{
    let mut made = first_lines(alloc, handler)?;
    for statement in handler.body.as_slice() {
        let kind = kind_in(decls, &statement.act);
        made.push(Line::Does(kind, act_copy(alloc, &statement.act)?))?;
    }
    Ok(made)
}

/// The number of a handler's first line.
pub(crate) fn first_number(handler: &Handler) -> u32
    ensures number { result ≡ lines.first_number (handler_of handler.now) }
    ensures small { result ≤ 1 }
{
    if handler.on.is_some() { 0 } else { 1 }
}

/// Names in place of a handler's arguments. It refuses out of memory alone.
fn names_written(alloc: Global, args: &[Id], names: &[Word]) -> Result<Vec<Written>, Memory>
    ensures { IfOk result (λ made. made.items ≡ names_written (map id_of args.now) names.now) }
{
    let mut made = Vec::new(alloc);
    let count = args.len().min(names.len());
    for at in 0..count {
        made.push(Written {
            word: args[at].word.copy(),
            bytes: name(alloc, &names[at])?,
        })?;
    }
    Ok(made)
}

/// What is written in a handler's text when it starts: names in place of its arguments, and the received message in
/// place of its word. It refuses out of memory alone.
pub(crate) fn written_first(
    alloc: Global,
    handler: &Handler,
    args: &[Word],
    message: Option<&FlatTerm>,
) -> Result<Vec<Written>, Memory>
    ensures { IfOk result (λ made. made.items ≡ names_written (handler_of handler.now).args args.now
        ++ message_written (handler_of handler.now).recv (option_copied message.entry)) }
{
    let mut made = names_written(alloc, handler.args.as_slice(), args)?;
    if let (Some(word), Some(bytes)) = (&handler.recv, message) {
        made.push(Written {
            word: word.word.copy(),
            bytes: bytes.copy(alloc)?,
        })?;
    }
    Ok(made)
}
