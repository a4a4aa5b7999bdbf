ghost use Rattle.std.specs.Prelude.{◌≡◌, ◌↔◌, ℕ, List};
ghost use Rattle.dy_syntax.specs.Expressions.{Expr};
ghost use Rattle.dy_syntax.specs.Statements.{Act, Handler};
ghost use Rattle.dy_syntax.specs.Files.{Decl};
ghost use Rattle.dy_cases.specs.DeclaredParts.{handlers_in};
ghost use Rattle.dy_types.specs.Claims.{IsWeaker};
ghost use Rattle.dy_typing.specs.Names.{Setting, setting_of};
ghost use Rattle.dy_typing.specs.Knowledge.{Knowledge, IsWellNumbered, IsWeakerKnowledge};
ghost use Rattle.dy_typing.specs.Expressions.{known_of_expr};
ghost use Rattle.dy_typing.specs.Demands.{Demand};
ghost use Rattle.dy_typing.specs.Conditions.{IsMet};
ghost use Rattle.dy_typing.specs.Effects.{after, start_of};
ghost use Rattle.dy_typing.specs.Typing.{HasDerivation, IsRefusedIn, IsRefusedAt, AreTyped};
ghost use Rattle.dy_typing.specs.Strongest.{AllMet, IsUnmetAt};

use dy_types::{
    stronger_knowledge_has_more, weaker_knowledge_is_ordered, weaker_parts_give_weaker_knowledge,
    what_a_meet_implies,
};

/// Knowledge is no weaker than itself, and what is weaker than weaker knowledge is weaker.
pub fn weaker_knowledge_of_a_handler_is_ordered()
    ensures itself { (k : Knowledge) → IsWeakerKnowledge k k }
    ensures onward { (first second third : Knowledge) →
        IsWeakerKnowledge first second → IsWeakerKnowledge second third → IsWeakerKnowledge first third }
{
    what_a_meet_implies();
    weaker_knowledge_is_ordered();
    stronger_knowledge_has_more();
    weaker_parts_give_weaker_knowledge();
}

/// Each rule of an expression gives from stronger knowledge the same or stronger knowledge, and what
/// weaker knowledge meets is met by stronger knowledge.
pub fn stronger_knowledge_goes_further()
    ensures expressions { (decls : List Decl) (stronger weaker : Knowledge) (expr : Expr) →
        IsWeakerKnowledge stronger weaker →
        IsWeaker (known_of_expr decls stronger expr) (known_of_expr decls weaker expr) }
    ensures conditions { (decls : List Decl) (stronger weaker : Knowledge) (demand : Demand) →
        IsWeakerKnowledge stronger weaker → IsMet decls weaker demand → IsMet decls stronger demand }
{
    what_a_meet_implies();
    weaker_knowledge_is_ordered();
    stronger_knowledge_has_more();
    weaker_parts_give_weaker_knowledge();
}

/// At the start of a handler and after each statement, each variable has a first one among those
/// that are bound.
pub fn variables_stay_well_numbered()
    ensures start { (decls : List Decl) (handler : Handler) → IsWellNumbered (start_of decls handler) }
    ensures onward { (setting : Setting) (k : Knowledge) (act : Act) →
        IsWellNumbered k → IsWellNumbered (after setting k act) }
{}

/// Each rule of a statement gives from stronger knowledge the same or stronger knowledge. It asks
/// that each variable has a first one among those that are bound.
pub fn statements_keep_the_order()
    ensures { (setting : Setting) (stronger weaker : Knowledge) (act : Act) → IsWellNumbered stronger →
        IsWeakerKnowledge stronger weaker → IsWeakerKnowledge (after setting stronger act) (after setting weaker act) }
{
    what_a_meet_implies();
    weaker_knowledge_is_ordered();
    stronger_knowledge_has_more();
    weaker_parts_give_weaker_knowledge();
}

/// The derivation that never weakens decides. A handler has a derivation exactly where that one
/// meets all demands, and is refused where that one first does not.
pub fn the_strongest_derivation_decides()
    ensures typed { (decls : List Decl) (handler : Handler) → HasDerivation decls handler ↔
        AllMet (setting_of decls handler) (start_of decls handler) handler.body }
    ensures refused { (decls : List Decl) (handler : Handler) (line condition field : ℕ) →
        IsUnmetAt (setting_of decls handler) (start_of decls handler) handler.body line condition field →
        IsRefusedIn decls handler line condition field }
{
    weaker_knowledge_of_a_handler_is_ordered();
    stronger_knowledge_goes_further();
    statements_keep_the_order();
}

/// A file is refused at one place at most, and one that is refused is not typed.
pub fn one_refused_place()
    ensures place { (decls : List Decl) (line condition field other_line other_condition other_field : ℕ) →
        IsRefusedAt decls line condition field → IsRefusedAt decls other_line other_condition other_field →
        (line ≡ other_line) × (condition ≡ other_condition) × (field ≡ other_field) }
    ensures untyped { (decls : List Decl) (line condition field : ℕ) →
        IsRefusedAt decls line condition field → AreTyped decls (handlers_in decls) → ⊥ }
{}
