ghost use Rattle.std.specs.Prelude.{◌≡◌, ◌≤◌, length, IfOk};
ghost use Rattle.dy_syntax.specs.Meaning.{file_of};
ghost use Rattle.dy_tool.specs.Protocols.{IsProtocol};
ghost use Rattle.dy_tool.specs.Due.{IsDueBy, IsDoneBy};

use crate::answers::{Answer, answer_fault};
use crate::commands::Command;
use crate::protocols::{Input, read_protocol};
use crate::running::run_plan;
use crate::statuses::Status;
use dy_know::{
    audit, interleavings_give_small_values, interleavings_make_nonces_first, write_audit,
};
use dy_lex::MAX_SOURCE_BYTES;
use dy_serial::an_interleaving_has_a_text;
use dy_syntax::File;
use dy_term::Memory;
use dy_trace_text::write_trace;
use std::alloc::Global;

/// The answer of `play` for an input of at most `MAX_SOURCE_BYTES` bytes.
pub(crate) fn play(alloc: Global, bytes: &[u8]) -> Result<Answer, Memory>
    requires { length bytes.now ≤ MAX_SOURCE_BYTES }
    ensures { IfOk result (λ a. IsDueBy Command.Play bytes.now a.status a.text.items) }
{
    match read_protocol(alloc, bytes)? {
        Input::Faulty(fault) => answer_fault(alloc, fault),
        Input::Protocol(file) => print_play(alloc, bytes, &file),
    }
}

/// The trace of a protocol's plan, and the report of its audit.
fn print_play(alloc: Global, bytes: &[u8], file: &File) -> Result<Answer, Memory>
    requires few { length bytes.now ≤ MAX_SOURCE_BYTES }
    requires protocol { IsProtocol bytes.now (file_of file.now) }
    ensures { IfOk result (λ a. (a.status ≡ Status.Done) × IsDoneBy Command.Play bytes.now a.text.items) }
{
    let book = run_plan(alloc, bytes, file)?;
    book.is_interleaving();
    an_interleaving_has_a_text();
    interleavings_give_small_values();
    interleavings_make_nonces_first();
    let entries = book.entries();
    let mut text = write_trace(alloc, entries)?;
    let report = audit(alloc, file, entries)?;
    let found = write_audit(alloc, &report)?;
    text.extend_from_slice(found.as_slice())?;
    Ok(Answer {
        status: Status::Done,
        text,
    })
}
