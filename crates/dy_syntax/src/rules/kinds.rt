//! w4 and w8: what depends on the kind of a usage.

ghost use Rattle.std.specs.Prelude.{◌≡◌, ◌++◌, map};
ghost use Rattle.dy_syntax.specs.Meaning.{kind_of, id_of, row_of, usage_of, field_of, field_type_of, decl_of};
ghost use Rattle.dy_syntax.specs.MirrorMeaning.{least_of};
ghost use Rattle.dy_syntax.specs.MirrorFaults.{note_lines};
ghost use Rattle.dy_syntax.specs.Rules.Kinds as rule;

use crate::declarations::{Decl, Field, FieldType, Row, UsageDecl};
use crate::least::Least;
use crate::look_ups::usage_named;
use crate::names::{Id, KindText};

pub(crate) fn is_kind(a: KindText, b: KindText) -> bool
    ensures { result ≡ rule.is_kind (kind_of a) (kind_of b) }
{
    matches!(
        (a, b),
        (KindText::Nonce, KindText::Nonce)
            | (KindText::Pke, KindText::Pke)
            | (KindText::Sig, KindText::Sig)
            | (KindText::Aead, KindText::Aead)
            | (KindText::Mac, KindText::Mac)
            | (KindText::Kdf, KindText::Kdf)
    )
}

/// A table stands on a usage that is not of kind `kdf`.
pub(crate) fn note_wrong_table(usage: &UsageDecl, least: &mut Least)
    ensures { least_of least.new ≡ note_lines 4 (rule.lines_of_wrong_table (usage_of usage.now)) (least_of least.old) }
{
    let is_wrong = usage.rows.len() != 0 && !is_kind(KindText::Kdf, usage.kind);
    least.note_if(is_wrong, 4, usage.kind_line);
}

/// A row names a usage of another kind than it says, or with another number of parameters than the table's own.
pub(crate) fn note_row(decls: &[Decl], usage: &UsageDecl, row: &Row, least: &mut Least)
    ensures { least_of least.new ≡ note_lines 4 (rule.lines_of_row_kind (map decl_of decls.now) (row_of row.now) ++
        rule.lines_of_row_params (map decl_of decls.now) (usage_of usage.now) (row_of row.now)) (least_of least.old) }
{
    if let Some(named) = usage_named(decls, &row.usage.word) {
        least.note_if(!is_kind(row.kind, named.kind), 4, row.kind_line);
        least.note_if(named.params.len() != usage.params.len(), 4, row.usage.line);
    }
}

pub(crate) fn has_cases(kind: KindText) -> bool
    ensures { result ≡ rule.has_cases (kind_of kind) }
{
    matches!(
        kind,
        KindText::Pke | KindText::Aead | KindText::Sig | KindText::Mac
    )
}

/// The usage is not of this kind.
pub(crate) fn note_kind(decls: &[Decl], kind: KindText, usage: &Id, least: &mut Least)
    ensures { least_of least.new ≡ note_lines 4 (rule.lines_of_kind (map decl_of decls.now) (kind_of kind)
        (id_of usage.now)) (least_of least.old) }
{
    if let Some(named) = usage_named(decls, &usage.word) {
        least.note_if(!is_kind(kind, named.kind), 4, usage.line);
    }
}

pub(crate) fn has_certificates(usage: &UsageDecl) -> bool
    ensures { result ≡ rule.has_certificates (usage_of usage.now) }
{
    matches!(usage.kind, KindText::Pke | KindText::Sig) && usage.params.len() == 1
}

fn is_hidden_type(kind: &FieldType) -> bool
    ensures { result ≡ rule.is_hidden_type (field_type_of kind.now) }
{
    matches!(
        kind,
        FieldType::Upto(_) | FieldType::Secret(_) | FieldType::Key(_, _)
    )
}

/// A case of a usage of kind sig or mac has a field of type `upto`, `secret` or `key`.
pub(crate) fn note_hidden_fields(kind: KindText, fields: &[Field], least: &mut Least)
    ensures { least_of least.new ≡ note_lines 8 (rule.lines_of_hidden_fields (rule.shows_fields (kind_of kind))
        (map field_of fields.now)) (least_of least.old) }
{
    if !matches!(kind, KindText::Sig | KindText::Mac) {
        return;
    }
    for field in fields {
        if is_hidden_type(&field.kind) {
            least.note(8, field.kind_line);
        }
    }
}
