ghost use Rattle.std.specs.Prelude.{◌≤◌, length, IfOk};
ghost use Rattle.dy_tool.specs.Judging.{IsJudgement};

use crate::answers::{Answer, answer_fault, answer_refused};
use crate::protocols::{Input, read_protocol};
use dy_lex::MAX_SOURCE_BYTES;
use dy_sound::{Accepted, Refusal, accept};
use dy_term::Memory;
use std::alloc::Global;

/// What an input is to a command that asks for typing.
#[derive(Drop)]
pub(crate) enum Judgement {
    Accepted(Accepted),
    /// The answer to an input that is no typed file.
    Refused(Answer),
}

/// Reads and checks an input of at most `MAX_SOURCE_BYTES` bytes.
pub(crate) fn judge(alloc: Global, bytes: &[u8]) -> Result<Judgement, Memory>
    requires { length bytes.now ≤ MAX_SOURCE_BYTES }
    ensures { IfOk result (IsJudgement bytes.now) }
{
    let file = match read_protocol(alloc, bytes)? {
        Input::Faulty(fault) => return Ok(Judgement::Refused(answer_fault(alloc, fault)?)),
        Input::Protocol(file) => file,
    };
    match accept(alloc, file) {
        Ok(accepted) => Ok(Judgement::Accepted(accepted)),
        Err(
            Refusal::NotAccepted {
                line,
                condition,
                field,
            },
        ) => Ok(Judgement::Refused(answer_refused(alloc, line, condition, field)?)),
        Err(Refusal::Memory) => Err(Memory),
    }
}
