//! w2: what is not declared anywhere, or not bound before its use.

ghost use Rattle.std.specs.Prelude.{◌≡◌};
ghost use Rattle.dy_syntax.specs.Meaning.{nm_of};
ghost use Rattle.dy_syntax.specs.MirrorMeaning.{least_of, where_of, scope_of};
ghost use Rattle.dy_syntax.specs.MirrorFaults.{note_lines};
ghost use Rattle.dy_syntax.specs.Rules.Declared as rule;

use crate::least::Least;
use crate::names::Nm;
use crate::scopes::{Scope, Where, is_bound};

/// A variable is not bound before its use, or an argument is no parameter or field of its declaration.
pub(crate) fn note_unbound(scope: &Scope, name: &Nm, least: &mut Least)
    ensures { least_of least.new ≡ note_lines 2 (rule.lines_of_unbound (scope_of scope.now) (nm_of name.now))
        (least_of least.old) }
{
    least.note_if(!is_bound(scope, name), 2, name.line());
}

/// In a handler, a variable that is not bound stands where only a name may stand.
pub(crate) fn note_unbound_name(scope: &Scope, name: &Nm, least: &mut Least)
    ensures { least_of least.new ≡ note_lines 2 (rule.lines_of_unbound_name
        (rule.is_in_handler (where_of scope.now.place)) (scope_of scope.now) (nm_of name.now)) (least_of least.old) }
{
    if let Where::InHandler { .. } = &scope.place {
        note_unbound(scope, name, least);
    }
}
