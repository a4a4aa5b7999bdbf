ghost use Rattle.std.specs.Prelude.{◌≡◌, map};
ghost use Rattle.dy_syntax.specs.Expressions.{list_of};
ghost use Rattle.dy_syntax.specs.Meaning.{id_of, nm_of, kind_of, quote_of, use_of, expr_of, args_of, file_of};
ghost use Rattle.dy_syntax.specs.MirrorMeaning.{least_of, scope_of};
ghost use Rattle.dy_syntax.specs.MirrorFaults.{note_part, note_parts};
ghost use Rattle.dy_syntax.specs.Parts as parts;

use crate::expressions::{Expr, Tuple};
use crate::files::File;
use crate::least::Least;
use crate::look_ups::case_named;
use crate::names::{Id, KindText, Nm, Quote, UseText};
use crate::parts::usages::{note_key, note_variable};
use crate::rules::lengths::note_lengths;
use crate::rules::names::note_exprs;
use crate::scopes::Scope;

/// A case with expressions for its fields.
#[tactic(auto, unfolding(crate::specs::MirrorFaults::note_part))]
pub(crate) fn note_filled(
    file: &File,
    scope: &Scope,
    usage: &Id,
    tag: &Quote,
    args: &[Expr],
    least: &mut Least,
)
    ensures { least_of least.new ≡ note_part (file_of file.now) (scope_of scope.now)
        (parts.Filled (id_of usage.now) (quote_of tag.now) (map expr_of args.now)) (least_of least.old) }
{
    match case_named(file.decls.as_slice(), &usage.word, &tag.text) {
        None => least.note(2, tag.line),
        Some(declared) => {
            let fields = declared.fields.as_slice();
            note_lengths(fields, args, tag.line, least);
            note_exprs(scope, fields, args, least);
        }
    }
}

/// A key by which a tuple is encrypted, signed or tagged.
#[tactic(auto, using(crate::proofs::Rows::list_of_args), unfolding(crate::specs::Parts::parts_of_sealed, crate::specs::MirrorFaults::note_part))]
fn note_sealed(
    file: &File,
    scope: &Scope,
    kind: KindText,
    key: &Nm,
    usage: &UseText,
    tuple: &Tuple,
    least: &mut Least,
)
    ensures { least_of least.new ≡ note_parts (file_of file.now) (scope_of scope.now)
        (parts.parts_of_sealed (kind_of kind) (nm_of key.now) (use_of usage.now) (quote_of tuple.now.tag)
        (list_of (args_of tuple.now))) (least_of least.old) }
{
    note_variable(file, scope, key, least);
    note_filled(
        file,
        scope,
        &usage.usage,
        &tuple.tag,
        tuple.args.as_slice(),
        least,
    );
    note_key(file, scope, kind, usage, least);
}

#[cycle(note_expr)]
#[tactic(auto, using(crate::proofs::Noted::note_parts_append, crate::proofs::Rows::parts_of_args))]
fn note_tuple(file: &File, scope: &Scope, tuple: &Tuple, least: &mut Least)
    ensures { least_of least.new ≡ note_parts (file_of file.now) (scope_of scope.now)
        (parts.parts_of_exprs (args_of tuple.now)) (least_of least.old) }
{
    for arg in &tuple.args {
        note_expr(file, scope, arg, least);
    }
}

/// An expression.
#[cycle(note_expr)]
#[tactic(auto, using(crate::proofs::Noted::note_parts_append))]
pub(crate) fn note_expr(file: &File, scope: &Scope, expr: &Expr, least: &mut Least)
    ensures { least_of least.new ≡ note_parts (file_of file.now) (scope_of scope.now)
        (parts.parts_of_expr (expr_of expr.now)) (least_of least.old) }
{
    match expr {
        Expr::Nm(name) => note_variable(file, scope, name, least),
        Expr::Lit(_) => {}
        Expr::Tuple(tuple) => note_tuple(file, scope, tuple, least),
        Expr::Pair(_, first, second) => {
            note_expr(file, scope, first, least);
            note_expr(file, scope, second, least);
        }
        Expr::Pk(_, key) => note_variable(file, scope, key, least),
        Expr::Vk(_, key) => note_variable(file, scope, key, least),
        Expr::Penc(_, key, usage, tuple) => {
            note_sealed(file, scope, KindText::Pke, key, usage, tuple, least);
            note_tuple(file, scope, tuple, least);
        }
        Expr::Aead(_, key, usage, tuple, ad) => {
            note_sealed(file, scope, KindText::Aead, key, usage, tuple, least);
            note_tuple(file, scope, tuple, least);
            note_expr(file, scope, ad, least);
        }
        Expr::Sign(_, key, usage, tuple) => {
            note_sealed(file, scope, KindText::Sig, key, usage, tuple, least);
            note_tuple(file, scope, tuple, least);
        }
        Expr::Mac(_, key, usage, tuple) => {
            note_sealed(file, scope, KindText::Mac, key, usage, tuple, least);
            note_tuple(file, scope, tuple, least);
        }
        Expr::Kdf(_, key, _, input) => {
            note_variable(file, scope, key, least);
            note_expr(file, scope, input, least);
        }
        Expr::Hash(_, message) => note_expr(file, scope, message, least),
    }
}
