//! w3: a list has another length than its declaration.

ghost use Rattle.std.specs.Prelude.{◌≡◌};
ghost use Rattle.dy_syntax.specs.MirrorMeaning.{least_of};
ghost use Rattle.dy_syntax.specs.MirrorFaults.{note_lines};
ghost use Rattle.dy_syntax.specs.Rules.Lengths as rule;

use crate::least::Least;

/// The two lists have different lengths.
pub(crate) fn note_lengths<X, Y>(declared: &[X], given: &[Y], line: u32, least: &mut Least)
    ensures { least_of least.new ≡ note_lines 3 (rule.lines_of_lengths declared.now given.now line)
        (least_of least.old) }
{
    least.note_if(declared.len() != given.len(), 3, line);
}
