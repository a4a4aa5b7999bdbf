ghost use Rattle.std.specs.Prelude.{IfOk, List};
ghost use Rattle.dy_label.specs.Words.{StaticLabel};
ghost use Rattle.dy_types.specs.Claims as plain;
ghost use Rattle.dy_types.specs.FieldTypes as types;
ghost use Rattle.dy_types.specs.Meaning.{type_of, known_of};
ghost use Rattle.dy_types.specs.Meaning as meaning;
ghost use Rattle.dy_types.specs.Tables.{HasTable, ClaimsHaveTables, TypeHasTable, KnownHasTables};
ghost use Rattle.dy_typing.specs.Effects.{shown_by};
ghost use Rattle.dy_check.specs.declared.effects.openings.Way as ways;
ghost use Rattle.dy_check.specs.MirrorOpenings as openings;
ghost use Rattle.dy_check.specs.MirrorOpenings.{IsOpening};

use dy_label::Table;
use dy_term::Memory;
use dy_types::{Claim, Declared, Known, claims_of, narrow, public_table};
use sqlite_items::Items;
use std::alloc::Global;

/// How the fields of a value come to be known: it was opened, or it was verified.
#[derive(Clone, Copy)]
pub(crate) enum Way {
    Opened,
    Verified,
}

/// How the fields of a value come to be known. It has the table of the label where who reads the
/// value may know them. It has that of the label where they may be forged.
#[derive(Clone, Copy)]
pub(crate) struct Opening {
    pub(crate) way: Way,
    pub(crate) hi: Table,
    pub(crate) guard: Table,
}

/// An opening this way, with these tables.
pub(crate) fn opening_by(way: Way, hi: &Table, guard: &Table) -> Opening
    ensures { (label forger : StaticLabel) → HasTable label hi.now → HasTable forger guard.now →
        IsOpening way label forger result }
{
    Opening {
        way,
        hi: *hi,
        guard: *guard,
    }
}

/// What all may see of a value that is signed or split: these claims, and whoever knows the value may
/// know this.
pub(crate) fn known_from(hi: &Table, claims: Items<Claim>) -> Known
    ensures { (value : plain.Known) (said : List plain.Claim) → HasTable value.hi hi.now →
        ClaimsHaveTables said (meaning.claims_of claims) → KnownHasTables (shown_by value said) (known_of result) }
{
    Known {
        hi: *hi,
        lo: public_table(),
        claims,
    }
}

/// What is known of a field of this type. It refuses out of memory alone.
pub(crate) fn known_by(
    alloc: Global,
    opening: &Opening,
    declared: &Declared,
) -> Result<Known, Memory>
    ensures { IfOk result (λ known. (way : ways.Way) (hi guard : StaticLabel) (type : types.Declared) →
        IsOpening way hi guard opening.now → TypeHasTable type (type_of declared.now) →
        KnownHasTables (openings.known_by way hi guard type) (known_of known)) }
{
    match opening.way {
        Way::Opened => narrow(alloc, declared, &opening.hi, &opening.guard),
        Way::Verified => {
            let claims = claims_of(alloc, declared, &opening.guard)?;
            Ok(known_from(&opening.hi, claims))
        }
    }
}
