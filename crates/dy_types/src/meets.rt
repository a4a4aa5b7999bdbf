ghost use Rattle.std.specs.Prelude.{◌↔◌, [], ◌∷◌, ◌++◌, List, Some, IsTrue};
ghost use Rattle.dy_label.specs.Words.{StaticLabel};
ghost use Rattle.dy_types.specs.Claims.{MeetImplies};
ghost use Rattle.dy_types.specs.Tables as tables;
ghost use Rattle.dy_types.specs.Tables.{HasTable, IsTableOfMeet};
ghost use Rattle.dy_types.specs.MirrorMeets.{MeetIn};

use dy_label::{Table, meet, within};

/// The meet of the tables that were met before, if there are any, and of one more.
pub(crate) fn meet_with(met: Option<Table>, table: &Table) -> Table
    ensures { (before : List tables.Table) → MeetIn before met → MeetIn (before ++ table.now ∷ []) (Some result) }
{
    match met {
        None => *table,
        Some(met) => meet(&met, table),
    }
}

/// Whether there is a table of a meet, and the meet implies the label that has the other table.
pub(crate) fn meet_implies(met: Option<Table>, table: &Table) -> bool
    ensures { (labels : List StaticLabel) (label : StaticLabel) →
        IsTableOfMeet labels met → HasTable label table.now → (IsTrue result ↔ MeetImplies labels label) }
{
    match met {
        None => false,
        Some(met) => within(&met, table),
    }
}
