ghost use Rattle.std.specs.Prelude.{◌≢◌, IsTrue, ◌↔◌};
ghost use Rattle.dy_syntax.specs.Meaning.{file_of};
ghost use Rattle.dy_syntax.specs.SameFiles.{AreSame};

use crate::files::File;
use crate::sameness::same_parts;

/// Whether the two files are the same but for line numbers.
pub fn same_file(file: &File, other: &File) -> bool
    ensures { IsTrue result ↔ AreSame (file_of file.now) (file_of other.now) }
{
    file.version == other.version
        && same_parts(file.decls.as_slice(), other.decls.as_slice())
        && same_parts(file.plan.rounds.as_slice(), other.plan.rounds.as_slice())
}
