ghost use Rattle.std.specs.Prelude.{◌≡◌, ◌≤◌, length, map, IfOk};
ghost use Rattle.dy_syntax.specs.Meaning.{decl_of};
ghost use Rattle.dy_cases.specs.DeclaredParts.{handlers_in};
ghost use Rattle.dy_tool.specs.Due.{IsDueBy, EachInterleavingIsSecure};

use crate::answers::{Answer, answer_accepted};
use crate::commands::Command;
use crate::judging::{Judgement, judge};
use crate::statuses::Status;
use dy_lex::MAX_SOURCE_BYTES;
use dy_parse::one_file;
use dy_syntax::Decl;
use dy_term::Memory;
use std::alloc::Global;

/// The answer of `check` for an input of at most `MAX_SOURCE_BYTES` bytes.
pub(crate) fn check(alloc: Global, bytes: &[u8]) -> Result<Answer, Memory>
    requires { length bytes.now ≤ MAX_SOURCE_BYTES }
    ensures due { IfOk result (λ a. IsDueBy Command.Check bytes.now a.status a.text.items) }
    ensures secure { IfOk result (λ a. a.status ≡ Status.Done → EachInterleavingIsSecure bytes.now) }
{
    match judge(alloc, bytes)? {
        Judgement::Accepted(accepted) => {
            one_file();
            accepted.is_secure();
            answer_accepted(alloc, count_handlers(accepted.file().decls.as_slice()))
        }
        Judgement::Refused(answer) => Ok(answer),
    }
}

/// How many handlers are declared.
fn count_handlers(decls: &[Decl]) -> usize
    ensures { result ≡ length (handlers_in (map decl_of decls.now)) }
{
    let mut handlers = 0;
    for decl in decls {
        if let Decl::Handler(_) = decl {
            handlers += 1;
        }
    }
    handlers
}
