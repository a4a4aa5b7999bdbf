ghost use Rattle.std.specs.Prelude.{ℕ, List, Contains};
ghost use Rattle.std.specs.List.{flat_map};
ghost use Rattle.dy_label.specs.Words.{Choice};
ghost use Rattle.dy_syntax.specs.Expressions.{Expr};
ghost use Rattle.dy_typing.specs.Names.{Setting};
ghost use Rattle.dy_typing.specs.Knowledge.{Knowledge};
ghost use Rattle.dy_typing.specs.Demands.{operations_of_expr, operation_demands};
ghost use Rattle.dy_typing.specs.Conditions.{AreMet};
ghost use Rattle.dy_entry.specs.Entries.{Entry};
ghost use Rattle.dy_eval.specs.declared.written.Written.{Written};
ghost use Rattle.dy_eval.specs.Names.{Names};
ghost use Rattle.dy_sound.specs.Valid.{IsValid};
ghost use Rattle.dy_sound.specs.Knowledge.{Holds};
ghost use Rattle.dy_sound.specs.Matches.{scope_in, HandlerMatches};
ghost use Rattle.dy_sound.specs.DerivedKeys.{TablesFit};
ghost use Rattle.dy_sound.specs.Sealings.{AreOfCases};
ghost use Rattle.dy_sound.specs.Expressions.{ExprHolds, ExprsHold};

use crate::laws_below::laws_below;

/// The value of an expression in an instance is valid, and what the typing rules know of it holds.
/// This asks that what the handler knows meets the demands of its operations. So it is with some
/// expressions together. What is written in the instance is valid, and each tuple that is sealed is
/// one of a declared case.
pub fn values_of_expressions_are_sound()
    ensures one { (T : List Entry) (setting : Setting) (choice : Choice) (newest : ℕ) (names : Names) (k : Knowledge) →
        HandlerMatches setting.names newest names choice → Holds setting.decls T choice names k →
        TablesFit setting.decls →
        ((written : Written) → Contains names.written written → IsValid setting.decls T written.bytes) →
        (expr : Expr) → AreOfCases setting.decls (scope_in setting.names names) (operations_of_expr expr) →
        AreMet setting.decls k (operation_demands setting (operations_of_expr expr)) →
        ExprHolds setting.decls T choice names k expr }
    ensures several { (T : List Entry) (setting : Setting) (choice : Choice) (newest : ℕ) (names : Names)
        (k : Knowledge) →
        HandlerMatches setting.names newest names choice → Holds setting.decls T choice names k →
        TablesFit setting.decls →
        ((written : Written) → Contains names.written written → IsValid setting.decls T written.bytes) →
        (exprs : List Expr) →
        AreOfCases setting.decls (scope_in setting.names names) (flat_map operations_of_expr exprs) →
        AreMet setting.decls k (operation_demands setting (flat_map operations_of_expr exprs)) →
        ExprsHold setting.decls T choice names k exprs }
{
    laws_below();
}
