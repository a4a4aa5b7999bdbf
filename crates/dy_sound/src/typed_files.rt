ghost use Rattle.std.specs.Prelude.{ℕ, List};
ghost use Rattle.dy_syntax.specs.Files.{File};
ghost use Rattle.dy_cases.specs.DeclaredParts.{handlers_in};
ghost use Rattle.dy_typing.specs.Typing.{AreTyped};
ghost use Rattle.dy_entry.specs.Entries.{Entry};
ghost use Rattle.dy_traces.specs.Interleavings.{Interleaves};
ghost use Rattle.dy_sound.specs.Secure.{IsSecure};

use crate::laws_below::laws_below;
use dy_term::sameness_is_equality;

/// Every interleaving of a typed file is secure: at each prefix its secrets are kept, and each event
/// follows its partners.
pub fn typed_is_secure()
    ensures { (bytes : List ℕ) (file : File) (T : List Entry) →
        AreTyped file.decls (handlers_in file.decls) → Interleaves bytes file T → IsSecure file.decls T }
{
    laws_below();
    sameness_is_equality();
}
