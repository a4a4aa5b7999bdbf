ghost use Rattle.std.specs.Prelude.{◌≡◌, List, [], map, length};
ghost use Rattle.dy_syntax.specs.Files.{Decl};
ghost use Rattle.dy_entry.specs.Entries.{Entry};
ghost use Rattle.dy_sound.specs.Secure.{IsSecure};
ghost use Rattle.dy_know.specs.Breaches.{without_recipe};
ghost use Rattle.dy_know.specs.Conditions.{MakesNoncesFirst};
ghost use Rattle.dy_know.specs.Reports.{Report, IsReport};

/// A trace is secure exactly where its report has no breach.
pub fn secure_where_nothing_is_breached()
    ensures secure { (decls : List Decl) (T : List Entry) (report : Report) →
        MakesNoncesFirst T → IsReport decls T report → report.breaches ≡ [] → IsSecure decls T }
    ensures breached { (decls : List Decl) (T : List Entry) (report : Report) →
        IsReport decls T report → IsSecure decls T → report.breaches ≡ [] }
{}

/// Two reports of one trace differ in nothing but the recipes of breaches.
pub fn one_report_for_a_trace()
    ensures known { (decls : List Decl) (T : List Entry) (a b : Report) →
        IsReport decls T a → IsReport decls T b → a.known ≡ b.known }
    ensures breaches { (decls : List Decl) (T : List Entry) (a b : Report) →
        IsReport decls T a → IsReport decls T b → map without_recipe a.breaches ≡ map without_recipe b.breaches }
    ensures count { (decls : List Decl) (T : List Entry) (a b : Report) →
        IsReport decls T a → IsReport decls T b → length a.breaches ≡ length b.breaches }
{}
