ghost use Rattle.std.specs.Prelude.{◌≡◌, [], ◌∷◌, ◌++◌, map, IfOk, OnOk, List, Option};
ghost use Rattle.std.specs.Option.{option_map};
ghost use Rattle.dy_label.specs.Words.{StaticLabel};
ghost use Rattle.dy_syntax.specs.Meaning.{decl_of, kind_of, expr_of, args_of};
ghost use Rattle.dy_types.specs.Claims as plain;
ghost use Rattle.dy_types.specs.Claims.{uses_in};
ghost use Rattle.dy_types.specs.Meaning.{use_of, claim_of, claims_of, known_of};
ghost use Rattle.dy_types.specs.Tables.{HasTable, ClaimsHaveTables, KnownHasTables};
ghost use Rattle.dy_typing.specs.Expressions as typing;
ghost use Rattle.dy_typing.specs.Knowledge as knowledge;
ghost use Rattle.dy_check.specs.Meaning.{knowledge_of};
ghost use Rattle.dy_check.specs.Tables.{KnowledgeHasTables};
ghost use Rattle.dy_check.specs.MirrorKeys.{claim_made, claims_made};

use crate::knowledge::Knowledge;
use crate::stands::NmRef;
use dy_cases::Cases;
use dy_label::{Table, meet};
use dy_syntax::{Expr, KindText, Nm, Tuple};
use dy_term::{Memory, Text, Word};
use dy_types::{Claim, Known, StaticUse, add_claim, public_table};
use sqlite_items::Items;
use std::alloc::Global;

/// What is made of a key: its public key, its verification key, or the key that is derived from it
/// with this text.
#[derive(Clone, Copy)]
pub(crate) enum Made<'a> {
    Public,
    Verification,
    Derived(&'a Text),
}

/// Whether the usage of this name is declared, and of this kind.
pub(crate) fn is_of_kind(cases: &Cases<'_>, kind: KindText, usage: &Word) -> bool
    ensures { result ≡ typing.is_of_kind (map decl_of cases.now) (kind_of kind) usage.now }
{
    match cases.usage_named(usage) {
        None => false,
        Some(declared) => kind == declared.kind,
    }
}

/// What is claimed of what is made of a key that has this usage and this label's table. It refuses
/// out of memory alone.
fn claim_made(
    alloc: Global,
    cases: &Cases<'_>,
    made: Made<'_>,
    label: &Table,
    usage: &StaticUse,
) -> Result<Option<Claim>, Memory>
    ensures { IfOk result (λ claim. option_map claim_of claim ≡
        claim_made (map decl_of cases.now) made.entry label.now (use_of usage.now)) }
{
    Ok(match made {
        Made::Public if is_of_kind(cases, KindText::Pke, &usage.usage) => {
            Some(Claim::Pk(*label, usage.copy(alloc)?))
        }
        Made::Verification if is_of_kind(cases, KindText::Sig, &usage.usage) => {
            Some(Claim::Vk(*label, usage.copy(alloc)?))
        }
        Made::Public | Made::Verification => None,
        Made::Derived(text) => match cases.row_named(&usage.usage, text) {
            None => None,
            Some(row) => Some(Claim::Use(StaticUse {
                usage: row.usage.word.copy(),
                args: Items::from_slice(alloc, usage.args.as_slice())?,
            })),
        },
    })
}

/// Adds what is claimed of what is made of a key that has this label's table, where it has the usage
/// that is claimed. It refuses out of memory alone.
fn add_made(
    alloc: Global,
    cases: &Cases<'_>,
    made: Made<'_>,
    label: &Table,
    claim: &Claim,
    claims: &mut Items<Claim>,
) -> Result<(), Memory>
    ensures { OnOk result ((before : List plain.Claim) (lo : StaticLabel) →
        ClaimsHaveTables before (claims_of claims.old) → HasTable lo label.now → ClaimsHaveTables
        (before ++ claims_made (map decl_of cases.now) made.entry lo (uses_in (claim_of claim.now ∷ [])))
        (claims_of claims.new)) }
{
    let Claim::Use(usage) = claim else {
        return Ok(());
    };
    match claim_made(alloc, cases, made, label, usage)? {
        None => Ok(()),
        Some(more) => add_claim(claims, more),
    }
}

/// What is claimed of what is made of this key. It refuses out of memory alone.
fn claims_made(
    alloc: Global,
    cases: &Cases<'_>,
    made: Made<'_>,
    key: &Known,
) -> Result<Items<Claim>, Memory>
    ensures { IfOk result (λ claims. (value : plain.Known) → KnownHasTables value (known_of key.now) →
        ClaimsHaveTables (claims_made (map decl_of cases.now) made.entry value.lo (uses_in value.claims))
        (claims_of claims)) }
{
    let mut claims = Items::new(alloc);
    for claim in key.claims.as_slice() {
        add_made(alloc, cases, made, &key.lo, claim, &mut claims)?;
    }
    Ok(claims)
}

/// What is known of the public key of a key of which this is known. It refuses out of memory alone.
fn public_key(alloc: Global, cases: &Cases<'_>, key: &Known) -> Result<Known, Memory>
    ensures { IfOk result (λ known. (value : plain.Known) → KnownHasTables value (known_of key.now) →
        KnownHasTables (typing.public_key (map decl_of cases.now) value) (known_of known)) }
{
    Ok(Known {
        hi: public_table(),
        lo: public_table(),
        claims: claims_made(alloc, cases, Made::Public, key)?,
    })
}

/// What is known of the verification key of a key of which this is known. It refuses out of memory
/// alone.
fn verification_key(alloc: Global, cases: &Cases<'_>, key: &Known) -> Result<Known, Memory>
    ensures { IfOk result (λ known. (value : plain.Known) → KnownHasTables value (known_of key.now) →
        KnownHasTables (typing.verification_key (map decl_of cases.now) value) (known_of known)) }
{
    Ok(Known {
        hi: public_table(),
        lo: public_table(),
        claims: claims_made(alloc, cases, Made::Verification, key)?,
    })
}

/// What is known of the key that is derived with this text from a key of which this is known. It
/// refuses out of memory alone.
fn derived_key(alloc: Global, cases: &Cases<'_>, text: &Text, key: &Known) -> Result<Known, Memory>
    ensures { IfOk result (λ known. (value : plain.Known) → KnownHasTables value (known_of key.now) →
        KnownHasTables (typing.derived_key (map decl_of cases.now) text.now value) (known_of known)) }
{
    Ok(Known {
        hi: key.hi,
        lo: key.lo,
        claims: claims_made(alloc, cases, Made::Derived(text), key)?,
    })
}

/// The labels of what is known, and no claim.
fn labels_alone(alloc: Global, known: &Known) -> Known
    ensures { (value : plain.Known) → KnownHasTables value (known_of known.now) →
        KnownHasTables (typing.labels_alone value) (known_of result) }
{
    Known {
        hi: known.hi,
        lo: known.lo,
        claims: Items::new(alloc),
    }
}

/// What is known of some parts together, and of one more.
fn with_part(together: Known, part: &Known) -> Known
    ensures { (parts : List plain.Known) (value : plain.Known) →
        KnownHasTables (typing.known_together parts) (known_of together) → KnownHasTables value (known_of part.now) →
        KnownHasTables (typing.known_together (parts ++ value ∷ [])) (known_of result) }
{
    Known {
        hi: meet(&together.hi, &part.hi),
        lo: meet(&together.lo, &part.lo),
        claims: together.claims,
    }
}

/// What is known of two values together.
fn two_together(alloc: Global, first: &Known, second: &Known) -> Known
    ensures { (value other : plain.Known) →
        KnownHasTables value (known_of first.now) → KnownHasTables other (known_of second.now) →
        KnownHasTables (typing.known_together (value ∷ other ∷ [])) (known_of result) }
{
    with_part(with_part(Known::plain(alloc), first), second)
}

/// What is known of a tuple. It refuses out of memory alone.
#[cycle(known_of_expr)]
fn known_of_tuple(
    alloc: Global,
    cases: &Cases<'_>,
    known: &Knowledge,
    tuple: &Tuple,
) -> Result<Known, Memory>
    ensures { IfOk result (λ value. (k : knowledge.Knowledge) → KnowledgeHasTables k (knowledge_of known.now) →
        KnownHasTables
        (typing.known_together (typing.knowns_of_exprs (map decl_of cases.now) k (args_of tuple.now)))
        (known_of value)) }
{
    let mut together = Known::plain(alloc);
    for arg in &tuple.args {
        let part = known_of_expr(alloc, cases, known, arg)?;
        together = with_part(together, &part);
    }
    Ok(together)
}

/// What is known of the value of an expression. It refuses out of memory alone.
#[cycle(known_of_expr)]
pub(crate) fn known_of_expr(
    alloc: Global,
    cases: &Cases<'_>,
    known: &Knowledge,
    expr: &Expr,
) -> Result<Known, Memory>
    ensures { IfOk result (λ value. (k : knowledge.Knowledge) → KnowledgeHasTables k (knowledge_of known.now) →
        KnownHasTables (typing.known_of_expr (map decl_of cases.now) k (expr_of expr.now)) (known_of value)) }
{
    match expr {
        Expr::Nm(name) => known.known_of(alloc, NmRef::of(name)),
        Expr::Lit(_) | Expr::Penc(_, _, _, _) => Ok(Known::plain(alloc)),
        Expr::Tuple(tuple) | Expr::Sign(_, _, _, tuple) | Expr::Mac(_, _, _, tuple) => {
            known_of_tuple(alloc, cases, known, tuple)
        }
        Expr::Pair(_, first, second) => {
            let first = known_of_expr(alloc, cases, known, first)?;
            let second = known_of_expr(alloc, cases, known, second)?;
            Ok(two_together(alloc, &first, &second))
        }
        Expr::Pk(_, key) => public_key(alloc, cases, &known.known_of(alloc, NmRef::of(key))?),
        Expr::Vk(_, key) => verification_key(alloc, cases, &known.known_of(alloc, NmRef::of(key))?),
        Expr::Kdf(_, key, context, _) => {
            let key = known.known_of(alloc, NmRef::of(key))?;
            derived_key(alloc, cases, &context.text, &key)
        }
        Expr::Aead(_, _, _, _, message) | Expr::Hash(_, message) => {
            let message = known_of_expr(alloc, cases, known, message)?;
            Ok(labels_alone(alloc, &message))
        }
    }
}

/// What is known of a tuple of these expressions. It refuses out of memory alone.
pub(crate) fn known_together(
    alloc: Global,
    cases: &Cases<'_>,
    known: &Knowledge,
    exprs: &[Expr],
) -> Result<Known, Memory>
    ensures { IfOk result (λ value. (k : knowledge.Knowledge) → KnowledgeHasTables k (knowledge_of known.now) →
        KnownHasTables (typing.known_together (map (typing.known_of_expr (map decl_of cases.now) k)
        (map expr_of exprs.now))) (known_of value)) }
{
    let mut together = Known::plain(alloc);
    for expr in exprs {
        let part = known_of_expr(alloc, cases, known, expr)?;
        together = with_part(together, &part);
    }
    Ok(together)
}
