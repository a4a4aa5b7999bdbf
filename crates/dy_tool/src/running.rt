ghost use Rattle.std.specs.Prelude.{◌≡◌, ◌≤◌, [], ◌∷◌, length, IfOk};
ghost use Rattle.dy_syntax.specs.Meaning.{file_of};
ghost use Rattle.dy_entry.specs.Entries.{Setup};
ghost use Rattle.dy_traces.specs.Interleavings.{Interleaves};
ghost use Rattle.dy_core.specs.BookMeaning.{trace_of, file_in};
ghost use Rattle.dy_tool.specs.Protocols.{IsProtocol};
ghost use Rattle.dy_tool.specs.Due.{IsDueBy, IsDoneBy, IsSerialRun, EachInterleavingIsSecure};
ghost use Rattle.dy_tool.specs.Judging.{IsTypedText};

use crate::answers::Answer;
use crate::commands::Command;
use crate::judging::{Judgement, judge};
use crate::statuses::Status;
use dy_core::{Book, OpenError};
use dy_lex::MAX_SOURCE_BYTES;
use dy_parse::{one_file, one_parse};
use dy_serial::{an_interleaving_has_a_text, run_serially};
use dy_sound::Accepted;
use dy_syntax::File;
use dy_term::Memory;
use dy_trace_text::write_trace;
use std::alloc::Global;

/// The answer of `run` for an input of at most `MAX_SOURCE_BYTES` bytes.
pub(crate) fn run(alloc: Global, bytes: &[u8]) -> Result<Answer, Memory>
    requires { length bytes.now ≤ MAX_SOURCE_BYTES }
    ensures due { IfOk result (λ a. IsDueBy Command.Run bytes.now a.status a.text.items) }
    ensures secure { IfOk result (λ a. a.status ≡ Status.Done → EachInterleavingIsSecure bytes.now) }
{
    match judge(alloc, bytes)? {
        Judgement::Accepted(accepted) => {
            one_file();
            accepted.is_secure();
            print_run(alloc, bytes, &accepted)
        }
        Judgement::Refused(answer) => Ok(answer),
    }
}

/// The trace of an accepted file's plan.
fn print_run(alloc: Global, bytes: &[u8], accepted: &Accepted) -> Result<Answer, Memory>
    requires few { length bytes.now ≤ MAX_SOURCE_BYTES }
    requires typed { IsTypedText bytes.now (file_of accepted.now.file) }
    ensures { IfOk result (λ a. (a.status ≡ Status.Done) × IsDoneBy Command.Run bytes.now a.text.items) }
{
    let book = run_plan(alloc, bytes, accepted.file())?;
    book.is_interleaving();
    an_interleaving_has_a_text();
    let text = write_trace(alloc, book.entries())?;
    Ok(Answer {
        status: Status::Done,
        text,
    })
}

/// A Book in which the plan of a protocol was run, step by step in text order.
pub(crate) fn run_plan(alloc: Global, bytes: &[u8], file: &File) -> Result<Book, Memory>
    requires few { length bytes.now ≤ MAX_SOURCE_BYTES }
    requires protocol { IsProtocol bytes.now (file_of file.now) }
    ensures { IfOk result (λ book. IsSerialRun bytes.now (file_of file.now) (trace_of book)) }
{
    let mut book = open_book(alloc, bytes, file)?;
    run_serially(alloc, &mut book, &file.plan)?;
    Ok(book)
}

/// A Book of a protocol in which nothing was run.
fn open_book(alloc: Global, bytes: &[u8], file: &File) -> Result<Book, Memory>
    requires few { length bytes.now ≤ MAX_SOURCE_BYTES }
    requires protocol { IsProtocol bytes.now (file_of file.now) }
    ensures trace { IfOk result (λ book. trace_of book ≡ Setup bytes.now ∷ []) }
    ensures file { IfOk result (λ book. file_in book ≡ file_of file.now) }
    ensures interleaves { IfOk result (λ book. Interleaves bytes.now (file_in book) (trace_of book)) }
{
    one_file();
    one_parse();
    match Book::open(alloc, bytes.to_vec(alloc)?) {
        Ok(book) => Ok(book),
        Err(OpenError::BadInput { .. }) => unreachable!(),
        Err(OpenError::Memory) => Err(Memory),
    }
}
