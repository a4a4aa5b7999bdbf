ghost use Rattle.std.specs.Prelude.{◌≤◌, length, IfOk};
ghost use Rattle.dy_tool.specs.Due.{IsDueBy};

use crate::answers::{Answer, answer_fault};
use crate::commands::Command;
use crate::protocols::{Input, read_protocol};
use crate::statuses::Status;
use dy_lex::MAX_SOURCE_BYTES;
use dy_show::show;
use dy_term::Memory;
use std::alloc::Global;

/// The answer of `show` for an input of at most `MAX_SOURCE_BYTES` bytes.
pub(crate) fn print_canonical(alloc: Global, bytes: &[u8]) -> Result<Answer, Memory>
    requires { length bytes.now ≤ MAX_SOURCE_BYTES }
    ensures { IfOk result (λ a. IsDueBy Command.Show bytes.now a.status a.text.items) }
{
    match read_protocol(alloc, bytes)? {
        Input::Faulty(fault) => answer_fault(alloc, fault),
        Input::Protocol(file) => Ok(Answer {
            status: Status::Done,
            text: show(alloc, &file)?,
        }),
    }
}
