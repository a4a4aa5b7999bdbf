//! w1 and w5: what is declared or bound twice.

ghost use Rattle.std.specs.Prelude.{◌≡◌, ◌∷◌, map, filter};
ghost use Rattle.std.specs.List.{flat_map};
ghost use Rattle.dy_syntax.specs.Meaning.{id_of, row_of, case_of, decl_of, field_of};
ghost use Rattle.dy_syntax.specs.MirrorMeaning.{least_of};
ghost use Rattle.dy_syntax.specs.MirrorFaults.{note_lines};
ghost use Rattle.dy_syntax.specs.Scopes as scopes;
ghost use Rattle.dy_syntax.specs.Places as places;
ghost use Rattle.dy_syntax.specs.Rules.Doubles as rule;

use crate::declarations::{CaseDecl, Decl, Field, Row};
use crate::least::Least;
use crate::names::Id;
use crate::scopes::is_among;

/// The name stands again among these.
pub(crate) fn note_same_name(number: u8, id: &Id, more: &[Id], least: &mut Least)
    ensures { least_of least.new ≡ note_lines number (map (λ i. i.line)
        (filter (rule.same_word (id_of id.now)) (map id_of more.now))) (least_of least.old) }
{
    for other in more {
        if id.word.same(&other.word) {
            least.note(number, other.line);
        }
    }
}

/// A name stands twice. The rule that this breaks has this number.
#[tactic(auto, using(crate::proofs::Noted::repeated_more))]
pub(crate) fn note_same_names(number: u8, ids: &[Id], least: &mut Least)
    ensures { least_of least.new ≡ note_lines number (rule.lines_of_same_names (map id_of ids.now))
        (least_of least.old) }
{
    for i in 0..ids.len() {
        let (_, more) = ids.split_at(i + 1);
        note_same_name(number, &ids[i], more, least);
    }
}

fn note_same_text(row: &Row, more: &[Row], least: &mut Least)
    ensures { least_of least.new ≡ note_lines 1 (map (λ r. r.text.line)
        (filter (rule.same_text (row_of row.now)) (map row_of more.now))) (least_of least.old) }
{
    for other in more {
        if row.text.text.same(&other.text.text) {
            least.note(1, other.text.line);
        }
    }
}

/// A text stands twice in one table.
#[tactic(auto, using(crate::proofs::Noted::repeated_more))]
pub(crate) fn note_same_texts(rows: &[Row], least: &mut Least)
    ensures { least_of least.new ≡ note_lines 1 (rule.lines_of_same_texts (map row_of rows.now)) (least_of least.old) }
{
    for i in 0..rows.len() {
        let (_, more) = rows.split_at(i + 1);
        note_same_text(&rows[i], more, least);
    }
}

fn is_same_case(a: &CaseDecl, b: &CaseDecl) -> bool
    ensures { result ≡ rule.same_case (case_of a.now) (case_of b.now) }
{
    a.usage.word.same(&b.usage.word) && a.tag.text.same(&b.tag.text)
}

fn note_same_case(case: &CaseDecl, more: &[Decl], least: &mut Least)
    ensures { least_of least.new ≡ note_lines 1 (map (λ c. c.tag.line)
        (filter (rule.same_case (case_of case.now)) (flat_map places.cases_in (map decl_of more.now))))
        (least_of least.old) }
{
    for decl in more {
        if let Decl::Case(other) = decl {
            if is_same_case(case, other) {
                least.note(1, other.tag.line);
            }
        }
    }
}

/// What stands again after this declaration, if it is a case.
#[tactic(auto, using(crate::proofs::Noted::note_lines_append))]
fn note_case_again(decl: &Decl, more: &[Decl], least: &mut Least)
    ensures { note_lines 1 (rule.lines_of_same_cases (flat_map places.cases_in (map decl_of more.now)))
        (least_of least.new) ≡ note_lines 1 (rule.lines_of_same_cases
        (flat_map places.cases_in (decl_of decl.now ∷ map decl_of more.now))) (least_of least.old) }
{
    if let Decl::Case(case) = decl {
        note_same_case(case, more, least);
    }
}

/// A case's usage and tag stand twice.
pub(crate) fn note_same_cases(decls: &[Decl], least: &mut Least)
    ensures { least_of least.new ≡ note_lines 1 (rule.lines_of_same_cases
        (flat_map places.cases_in (map decl_of decls.now))) (least_of least.old) }
{
    for i in 0..decls.len() {
        let (_, more) = decls.split_at(i + 1);
        note_case_again(&decls[i], more, least);
    }
}

/// A field has the name of one of these parameters.
pub(crate) fn note_fields_as_params(params: &[Id], fields: &[Field], least: &mut Least)
    ensures { least_of least.new ≡ note_lines 5 (rule.lines_of_ids_among (scopes.words_of (map id_of params.now))
        (scopes.field_names (map field_of fields.now))) (least_of least.old) }
{
    for field in fields {
        if is_among(&field.name.word, params) {
            least.note(5, field.name.line);
        }
    }
}
