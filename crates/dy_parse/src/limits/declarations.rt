ghost use Rattle.std.specs.Prelude.{◌≡◌, map};
ghost use Rattle.dy_syntax.specs.Declarations as declarations;
ghost use Rattle.dy_syntax.specs.Names as names;
ghost use Rattle.dy_syntax.specs.Files as files;
ghost use Rattle.dy_syntax.specs.Meaning.{atom_of, decl_of, field_of, field_type_of, id_of, param_of, partner_of, row_of};
ghost use Rattle.dy_parse.specs.Limits as limits;
ghost use Rattle.dy_parse.specs.Mirrors.Limits.{first_of, note_all};

use crate::errors::LimitName;
use crate::limits::expressions::note_use;
use crate::limits::handlers::note_handler;
use crate::limits::labels::note_label;
use crate::limits::least::First;
use crate::limits::members::{Noted, Placed, note_each, note_fields, note_members};
use dy_syntax::{AtomText, Decl, Field, FieldType, Id, Param, Partner, Row};

impl Placed for Id {
    ghost Plain = { names.Id };

    ghost plain = { id_of };

    ghost place = { λ id. id.line };

    fn line(&self) -> u32 {
        self.line
    }
}

impl Placed for Field {
    ghost Plain = { declarations.Field };

    ghost plain = { field_of };

    ghost place = { λ field. field.name.line };

    fn line(&self) -> u32 {
        self.name.line
    }
}

impl Placed for Row {
    ghost Plain = { declarations.Row };

    ghost plain = { row_of };

    ghost place = { λ row. row.text.line };

    fn line(&self) -> u32 {
        self.text.line
    }
}

impl Placed for Param {
    ghost Plain = { declarations.Param };

    ghost plain = { param_of };

    ghost place = { λ param. param.line };

    fn line(&self) -> u32 {
        self.line
    }
}

impl Placed for Partner {
    ghost Plain = { declarations.Partner };

    ghost plain = { partner_of };

    ghost place = { λ partner. partner.atom.event.line };

    fn line(&self) -> u32 {
        self.atom.event.line
    }
}

impl Placed for AtomText {
    ghost Plain = { names.AtomText };

    ghost plain = { atom_of };

    ghost place = { λ atom. atom.event.line };

    fn line(&self) -> u32 {
        self.event.line
    }
}

/// An event with its arguments.
pub(crate) fn note_atom(atom: &AtomText, first: &mut First)
    ensures { first_of first.new ≡ note_all (limits.excess_in_atom (atom_of atom.now)) (first_of first.old) }
{
    note_fields(atom.args.as_slice(), first);
}

/// The type of a field.
#[tactic(auto, using(crate::proofs::LimitLaws::Folds::note_all_append))]
fn note_type(kind: &FieldType, first: &mut First)
    ensures { first_of first.new ≡ note_all (limits.excess_in_type (field_type_of kind.now)) (first_of first.old) }
{
    match kind {
        FieldType::Name | FieldType::Any => {}
        FieldType::Upto(label) | FieldType::Secret(label) => note_label(label, first),
        FieldType::Key(label, usage) | FieldType::Pk(label, usage) | FieldType::Vk(label, usage) =>
            {
                note_label(label, first);
                note_use(usage, first);
            }
    }
}

impl Noted for AtomText {
    ghost Whole = { names.AtomText };

    ghost whole = { atom_of };

    ghost excess = { limits.excess_in_atom };

    fn note(&self, first: &mut First) {
        note_atom(self, first);
    }
}

impl Noted for Field {
    ghost Whole = { declarations.Field };

    ghost whole = { field_of };

    ghost excess = { λ field. limits.excess_in_type field.kind };

    fn note(&self, first: &mut First) {
        note_type(&self.kind, first);
    }
}

impl Noted for Partner {
    ghost use Rattle.std.specs.Prelude.{◌++◌};

    ghost Whole = { declarations.Partner };

    ghost whole = { partner_of };

    ghost excess = { λ partner. limits.excess_in_atom partner.atom ++ limits.excess_in_label partner.unless };

    #[tactic(auto, using(crate::proofs::LimitLaws::Folds::note_all_append))]
    fn note(&self, first: &mut First) {
        note_atom(&self.atom, first);
        note_label(&self.unless, first);
    }
}

#[tactic(auto, using(crate::proofs::LimitLaws::Folds::note_all_append))]
fn note_typed(fields: &[Field], first: &mut First)
    ensures { first_of first.new ≡ note_all (limits.excess_in_fields (map field_of fields.now)) (first_of first.old) }
{
    note_fields(fields, first);
    note_each(fields, first);
}

#[tactic(auto, using(crate::proofs::LimitLaws::Folds::note_all_append))]
fn note_partners(partners: &[Partner], first: &mut First)
    ensures { first_of first.new ≡ note_all
        (limits.excess_in_partners (map partner_of partners.now)) (first_of first.old) }
{
    note_members(LimitName::Partners, partners, first);
    note_each(partners, first);
}

#[tactic(auto, using(crate::proofs::LimitLaws::Folds::note_all_append))]
fn note_required(atoms: &[AtomText], first: &mut First)
    ensures { first_of first.new ≡ note_all (limits.excess_in_required (map atom_of atoms.now)) (first_of first.old) }
{
    note_members(LimitName::Partners, atoms, first);
    note_each(atoms, first);
}

/// A declaration.
#[tactic(auto, using(crate::proofs::LimitLaws::Folds::note_all_append))]
fn note_decl(decl: &Decl, first: &mut First)
    ensures { first_of first.new ≡ note_all (limits.excess_in_decl (decl_of decl.now)) (first_of first.old) }
{
    match decl {
        Decl::Usage(usage) => {
            note_fields(usage.params.as_slice(), first);
            note_members(LimitName::Rows, usage.rows.as_slice(), first);
        }
        Decl::Case(case) => {
            note_typed(case.fields.as_slice(), first);
            note_required(case.requires_.as_slice(), first);
        }
        Decl::Event(event) => {
            note_fields(event.params.as_slice(), first);
            note_partners(event.after.as_slice(), first);
        }
        Decl::State(state) => {
            note_typed(state.fields.as_slice(), first);
            note_partners(state.knows.as_slice(), first);
        }
        Decl::Handler(handler) => note_handler(handler, first),
    }
}

impl Noted for Decl {
    ghost Whole = { files.Decl };

    ghost whole = { decl_of };

    ghost excess = { limits.excess_in_decl };

    fn note(&self, first: &mut First) {
        note_decl(self, first);
    }
}
