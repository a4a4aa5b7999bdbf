ghost use Rattle.std.specs.Prelude.{◌≡◌, ℕ, map, IfOk};
ghost use Rattle.dy_syntax.specs.Meaning.{decl_of};
ghost use Rattle.dy_cases.specs.DeclaredParts.{handlers_in};
ghost use Rattle.dy_typing.specs.Typing.{AreTyped, IsRefusedAt};
ghost use Rattle.dy_check.specs.Range.{AreShort};
ghost use Rattle.dy_check.specs.declared.checking.Verdict.TheVariants.{Accepted, Refused};

use crate::handlers::check_handler;
use dy_cases::Cases;
use dy_syntax::File;
use dy_term::Memory;
use dy_typing::the_strongest_derivation_decides;
use std::alloc::Global;

/// Whether a file is typed: if it is not, where it is refused first. `field` is the number of the
/// field, the event or the partner, or 0.
#[derive(Clone, Copy, Debug, PartialEq, Eq)]
pub enum Verdict {
    Accepted,
    Refused { line: u32, condition: u8, field: u8 },
}

/// Whether a file is typed, and where it is refused if it is not. It is refused at the first
/// statement, and there at the first demand, that no derivation meets. It refuses out of memory
/// alone.
pub fn check(alloc: Global, file: &File) -> Result<Verdict, Memory>
    requires { AreShort (map decl_of file.now.decls) }
    ensures accepted { IfOk result (λ verdict. verdict ≡ Accepted →
        AreTyped (map decl_of file.now.decls) (handlers_in (map decl_of file.now.decls))) }
    ensures refused { IfOk result (λ verdict. (line condition field : ℕ) → verdict ≡ Refused line condition field →
        IsRefusedAt (map decl_of file.now.decls) line condition field) }
{
    the_strongest_derivation_decides();
    let cases = Cases::of(alloc, file)?;
    for handler in cases.handlers() {
        if let Some(refusal) = check_handler(alloc, &cases, handler)? {
            return Ok(Verdict::Refused {
                line: refusal.line,
                condition: refusal.condition,
                field: refusal.field,
            });
        }
    }
    Ok(Verdict::Accepted)
}
