ghost use Rattle.std.specs.Prelude.{List};
ghost use Rattle.dy_syntax.specs.Names.{Id, Quote, Nm, UseText};
ghost use Rattle.dy_syntax.specs.Expressions.{Expr};
ghost use Rattle.dy_syntax.specs.Statements.{Pattern, Split, Opened, Popened, Verify, Check};
ghost use Rattle.dy_sound.specs.StatementsAreSound.{WritesSoundly};

use crate::laws_below::laws_below;
use dy_term::sameness_is_equality;

/// After `split`, `open`, `popen`, `verify` and `check` what is known holds, and what they write is
/// valid. The content is shown, or it was sealed by the rules of its case.
pub fn openings_are_sound()
    ensures split { (value : Id) (tag : Quote) (pats : List Pattern) → WritesSoundly (Split value tag pats) }
    ensures open_ { (value key : Id) (usage : UseText) (tag : Quote) (pats : List Pattern) (ad : Expr) →
        WritesSoundly (Opened value key usage tag pats ad) }
    ensures popen { (value key : Id) (usage : UseText) (tag : Quote) (pats : List Pattern) →
        WritesSoundly (Popened value key usage tag pats) }
    ensures verify { (value key : Id) (usage : UseText) (tag : Quote) (pats : List Pattern) →
        WritesSoundly (Verify value key usage tag pats) }
    ensures check { (value key : Id) (usage : UseText) (tag : Quote) (args : List Nm) →
        WritesSoundly (Check value key usage tag args) }
{
    laws_below();
    sameness_is_equality();
}
