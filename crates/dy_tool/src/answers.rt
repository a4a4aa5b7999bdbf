ghost use Rattle.std.specs.Prelude.{◌≡◌, IfOk, string_bytes};
ghost use Rattle.dy_tool.specs.Protocols.{fault_text};
ghost use Rattle.dy_tool.specs.Texts as texts;

use crate::protocols::InputFault;
use crate::statuses::Status;
use dy_term::Memory;
use std::alloc::{AllocError, Global};

/// A status, and the text that goes with it.
#[derive(Drop)]
pub(crate) struct Answer {
    pub(crate) status: Status,
    pub(crate) text: Vec<u8>,
}

pub(crate) fn answer_accepted(alloc: Global, handlers: usize) -> Result<Answer, Memory>
    ensures { IfOk result (λ a. (a.status ≡ Status.Done) × (a.text.items ≡ texts.accepted_text handlers)) }
{
    let text = format!(in alloc; "accepted {handlers} handlers\n")?;
    Ok(with_text(Status::Done, text))
}

pub(crate) fn answer_refused(
    alloc: Global,
    line: u32,
    condition: u8,
    field: u8,
) -> Result<Answer, Memory>
    ensures { IfOk result (λ a.
        (a.status ≡ Status.NotAccepted) × (a.text.items ≡ texts.refused_text line condition field)) }
{
    let text = refused_line(alloc, line, condition, field)?;
    Ok(with_text(Status::NotAccepted, text))
}

fn refused_line(alloc: Global, line: u32, condition: u8, field: u8) -> Result<String, AllocError>
    ensures { IfOk result (λ text. string_bytes text ≡ texts.refused_text line condition field) }
{
    format!(in alloc; "refused line {line} c{condition} field {field}\n")
}

/// The answer to an input that is no protocol.
pub(crate) fn answer_fault(alloc: Global, fault: InputFault) -> Result<Answer, Memory>
    ensures { IfOk result (λ a. (a.status ≡ Status.Input) × (a.text.items ≡ fault_text fault)) }
{
    let text = fault_line(alloc, fault)?;
    Ok(with_text(Status::Input, text))
}

fn fault_line(alloc: Global, fault: InputFault) -> Result<String, AllocError>
    ensures { IfOk result (λ text. string_bytes text ≡ fault_text fault) }
{
    match fault {
        InputFault::Syntax { line } => syntax_line(alloc, line),
        InputFault::Limit { line, which } => limit_line(alloc, line, which.as_str()),
        InputFault::Rule { line, rule } => rule_line(alloc, line, rule),
    }
}

fn syntax_line(alloc: Global, line: u32) -> Result<String, AllocError>
    ensures { IfOk result (λ text. string_bytes text ≡ texts.syntax_text line) }
{
    format!(in alloc; "line {line}: syntax\n")
}

fn limit_line(alloc: Global, line: u32, name: &str) -> Result<String, AllocError>
    ensures { IfOk result (λ text. string_bytes text ≡ texts.limit_line line name.now) }
{
    format!(in alloc; "line {line}: limit {name}\n")
}

fn rule_line(alloc: Global, line: u32, rule: u8) -> Result<String, AllocError>
    ensures { IfOk result (λ text. string_bytes text ≡ texts.rule_text line rule) }
{
    format!(in alloc; "line {line}: rule w{rule}\n")
}

fn with_text(status: Status, text: String) -> Answer
    ensures { (result.status ≡ status) × (result.text.items ≡ string_bytes text) }
{
    Answer {
        status,
        text: text.into_bytes(),
    }
}
