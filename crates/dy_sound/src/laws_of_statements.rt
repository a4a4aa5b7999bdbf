ghost use Rattle.std.specs.Prelude.{List};
ghost use Rattle.dy_syntax.specs.Names.{Id, Nm, UseText, AtomText};
ghost use Rattle.dy_syntax.specs.Labels.{LabelText};
ghost use Rattle.dy_syntax.specs.Expressions.{Expr};
ghost use Rattle.dy_syntax.specs.Statements.{Pattern, New, Let, Event, Send, Store, Certify, Find, Recall, Same};
ghost use Rattle.dy_sound.specs.StatementsAreSound.{WritesSoundly, PutsSoundly, GoesOnSoundly};

use crate::laws_below::laws_below;
use dy_term::sameness_is_equality;

/// In a good trace of a well-formed file, a statement of a handler whose demands are met keeps what
/// is known. What it writes is valid, what it puts is good, and what is known after it holds. So
/// does the state that a handler goes on from.
pub fn statements_keep_what_is_known()
    ensures new { (name : Id) (usage : UseText) (label : LabelText) → PutsSoundly (New name usage label) }
    ensures let_ { (name : Id) (value : Expr) → WritesSoundly (Let name value) }
    ensures event { (atom : AtomText) → PutsSoundly (Event atom) }
    ensures send { (value : Expr) → PutsSoundly (Send value) }
    ensures store { (state : Id) (fields : List Expr) → PutsSoundly (Store state fields) }
    ensures certify { (key usage : Id) → PutsSoundly (Certify key usage) }
    ensures find { (usage : Id) (owner : Nm) (name : Id) → WritesSoundly (Find usage owner name) }
    ensures recall { (state : Id) (pats : List Pattern) → WritesSoundly (Recall state pats) }
    ensures same { (left right : Nm) → WritesSoundly (Same left right) }
    ensures on { GoesOnSoundly }
{
    laws_below();
    sameness_is_equality();
}
