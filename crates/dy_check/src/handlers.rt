ghost use Rattle.std.specs.Prelude.{map, IfOk};
ghost use Rattle.dy_syntax.specs.Meaning.{decl_of, handler_of};
ghost use Rattle.dy_check.specs.Range.{AreShort, HasFewNames};
ghost use Rattle.dy_check.specs.MirrorHandlers.{IsFirstRefusal};

use crate::conditions::first_unmet;
use crate::effects::starts::at_start;
use crate::effects::statements::after;
use crate::settings::Setting;
use dy_cases::Cases;
use dy_syntax::Handler;
use dy_term::Memory;
use std::alloc::Global;

/// Where a handler is refused: the line of the statement and the number of the condition. The third
/// is that of the field, the event or the partner, or 0.
#[derive(Clone, Copy)]
pub(crate) struct Refusal {
    pub(crate) line: u32,
    pub(crate) condition: u8,
    pub(crate) field: u8,
}

/// The first place of a handler where a demand is not met, or `None` where all are met. It refuses
/// out of memory alone.
pub(crate) fn check_handler<'a>(
    alloc: Global,
    cases: &Cases<'a>,
    handler: &'a Handler,
) -> Result<Option<Refusal>, Memory>
    requires short { AreShort (map decl_of cases.now) }
    requires names { HasFewNames (handler_of handler.now) }
    ensures { IfOk result (λ refusal. IsFirstRefusal (map decl_of cases.now) (handler_of handler.now) refusal) }
{
    let setting = Setting::of(alloc, cases, handler)?;
    let mut known = at_start(alloc, &setting, handler)?;
    for statement in handler.body.as_slice() {
        if let Some(unmet) = first_unmet(alloc, &setting, &known, &statement.act)? {
            return Ok(Some(Refusal {
                line: statement.line,
                condition: unmet.condition,
                field: unmet.field,
            }));
        }
        after(alloc, &setting, &mut known, &statement.act)?;
    }
    Ok(None)
}
