ghost use Rattle.std.specs.Prelude.{◌≡◌, ◌++◌, ◌<◌, ◌≤◌, Some, IfOk, OnOk, IfSome};
ghost use Rattle.std.specs.Prelude.{length, map, zip, position};
ghost use Rattle.std.specs.Option.{option_map};
ghost use Rattle.std.specs.Str.{bytes_eq};
ghost use Rattle.dy_syntax.specs.Meaning.{id_of, nm_of, atom_of, expr_of, pattern_of, field_of, param_of};
ghost use Rattle.dy_syntax.specs.Meaning.{decl_of, case_of, state_of, event_of};
ghost use Rattle.dy_syntax.specs.Scopes.{words_of, field_names, param_names};
ghost use Rattle.dy_typing.specs.Names as typing;
ghost use Rattle.dy_typing.specs.Names.{exprs_names, patterns_names};
ghost use Rattle.dy_check.specs.Meaning.{nm_ref_of, places_of, stands_of};

use dy_cases::Cases;
use dy_syntax::{AtomText, CaseDecl, EventDecl, Expr, Field, Id, Nm, Param, Pattern, StateDecl};
use dy_term::{Memory, Word};
use sqlite_items::Items;
use std::alloc::Global;

/// A name or a variable that is written somewhere, `self` with its line.
#[derive(Clone, Copy)]
pub(crate) enum NmRef<'a> {
    Me(u32),
    Named(&'a Id),
}

/// A word of a declaration, and the name or the variable in its place, if there is one.
#[derive(Clone, Copy)]
pub(crate) struct Standing<'a> {
    pub(crate) word: &'a Word,
    pub(crate) place: Option<NmRef<'a>>,
}

impl<'a> NmRef<'a> {
    /// This name, by reference.
    pub(crate) fn of(name: &'a Nm) -> NmRef<'a>
        ensures { nm_ref_of result ≡ nm_of name.now }
    {
        match name {
            Nm::Named(id) => NmRef::Named(id),
            Nm::Me { line } => NmRef::Me(*line),
        }
    }
}

/// These names and variables, each by reference. It refuses out of memory alone.
pub(crate) fn name_refs(alloc: Global, names: &[Nm]) -> Result<Items<NmRef<'_>>, Memory>
    ensures { IfOk result (λ refs. map nm_ref_of refs ≡ map nm_of names.now) }
{
    let mut refs = Items::new(alloc);
    for name in names {
        refs.push(NmRef::of(name))?;
    }
    Ok(refs)
}

/// The place of the first of these words that is this one.
fn place_in(words: &[Word], wanted: &Word) -> Option<usize>
    ensures place { result ≡ position (bytes_eq wanted.now) words.now }
    ensures within { IfSome result (λ place. place < length words.now) }
{
    words.iter().position(|word| wanted.same(word))
}

/// The number of a name or a variable among these words: `self` is 0, and after it come the words
/// in order. It is `None` for a word that is not among them.
pub(crate) fn number_in(words: &[Word], name: NmRef<'_>) -> Option<usize>
    ensures number { result ≡ typing.number_in words.now (nm_ref_of name.entry) }
    ensures within { IfSome result (λ number. number ≤ length words.now) }
{
    match name {
        NmRef::Me(_) => Some(0),
        NmRef::Named(id) => {
            let place = place_in(words, &id.word)?;
            Some(place + 1)
        }
    }
}

/// The expression, where it is a name or a variable.
fn expr_name(expr: &Expr) -> Option<NmRef<'_>>
    ensures { option_map nm_ref_of result ≡ typing.expr_name (expr_of expr.now) }
{
    match expr {
        Expr::Nm(name) => Some(NmRef::of(name)),
        _ => None,
    }
}

/// The variable that a pattern binds or compares with.
fn pattern_name(pat: &Pattern) -> NmRef<'_>
    ensures { nm_ref_of result ≡ typing.pattern_name (pattern_of pat.now) }
{
    match pat {
        Pattern::Bind(name) => NmRef::Named(name),
        Pattern::Named { name, .. } => NmRef::Named(name),
        Pattern::Equal { to, .. } => NmRef::of(to),
    }
}

/// What has the places of fields where these expressions are given for them. It refuses out of
/// memory alone.
pub(crate) fn expr_places(alloc: Global, exprs: &[Expr]) -> Result<Items<Option<NmRef<'_>>>, Memory>
    ensures { IfOk result (λ places. places_of places ≡ exprs_names (map expr_of exprs.now)) }
{
    let mut places = Items::new(alloc);
    for expr in exprs {
        places.push(expr_name(expr))?;
    }
    Ok(places)
}

/// What has the places of fields where these patterns are. It refuses out of memory alone.
pub(crate) fn pattern_places(
    alloc: Global,
    pats: &[Pattern],
) -> Result<Items<Option<NmRef<'_>>>, Memory>
    ensures { IfOk result (λ places. places_of places ≡ patterns_names (map pattern_of pats.now)) }
{
    let mut places = Items::new(alloc);
    for pat in pats {
        places.push(Some(pattern_name(pat)))?;
    }
    Ok(places)
}

/// What has the places of fields where these names and variables are given for them. It refuses out
/// of memory alone.
pub(crate) fn name_places(alloc: Global, names: &[Nm]) -> Result<Items<Option<NmRef<'_>>>, Memory>
    ensures { IfOk result (λ places. places_of places ≡ map Some (map nm_of names.now)) }
{
    let mut places = Items::new(alloc);
    for name in names {
        places.push(Some(NmRef::of(name)))?;
    }
    Ok(places)
}

/// Adds each of these words with what has its place, as far as both go.
fn add_words<'x>(
    stands: &mut Items<Standing<'x>>,
    ids: &'x [Id],
    args: &'x [Nm],
) -> Result<(), Memory>
    ensures { OnOk result (stands_of stands.new ≡
        stands_of stands.old ++ zip (words_of (map id_of ids.now)) (map Some (map nm_of args.now))) }
{
    for (at, id) in ids.iter().enumerate() {
        let Some(arg) = args.get(at) else { break };
        stands.push(Standing {
            word: &id.word,
            place: Some(NmRef::of(arg)),
        })?;
    }
    Ok(())
}

/// The same for the names of fields.
fn add_fields<'x>(
    stands: &mut Items<Standing<'x>>,
    fields: &'x [Field],
    places: &[Option<NmRef<'x>>],
) -> Result<(), Memory>
    ensures { OnOk result (stands_of stands.new ≡
        stands_of stands.old ++ zip (words_of (field_names (map field_of fields.now))) (places_of places.now)) }
{
    for (at, field) in fields.iter().enumerate() {
        let Some(place) = places.get(at) else { break };
        stands.push(Standing {
            word: &field.name.word,
            place: *place,
        })?;
    }
    Ok(())
}

/// The same for the parameters of an event.
fn add_params<'x>(
    stands: &mut Items<Standing<'x>>,
    params: &'x [Param],
    args: &'x [Nm],
) -> Result<(), Memory>
    ensures { OnOk result (stands_of stands.new ≡
        stands_of stands.old ++
        zip (words_of (param_names (map param_of params.now))) (map Some (map nm_of args.now))) }
{
    for (at, param) in params.iter().enumerate() {
        let Some(arg) = args.get(at) else { break };
        stands.push(Standing {
            word: &param.name.word,
            place: Some(NmRef::of(arg)),
        })?;
    }
    Ok(())
}

/// What stands for the words of a case: the usage's arguments for its parameters, and what has the
/// places of the fields. It refuses out of memory alone.
pub(crate) fn case_stands<'x>(
    alloc: Global,
    cases: &Cases<'x>,
    args: &'x [Nm],
    case: &'x CaseDecl,
    places: &[Option<NmRef<'x>>],
) -> Result<Items<Standing<'x>>, Memory>
    ensures { IfOk result (λ stands. stands_of stands ≡ typing.case_stands (map decl_of cases.now)
        (map nm_of args.now) (case_of case.now) (places_of places.now)) }
{
    let mut stands = Items::new(alloc);
    if let Some(usage) = cases.usage_named(&case.usage.word) {
        add_words(&mut stands, usage.params.as_slice(), args)?;
    }
    add_fields(&mut stands, case.fields.as_slice(), places)?;
    Ok(stands)
}

/// What stands for the words of a state: what has the places of its fields. It refuses out of memory
/// alone.
pub(crate) fn state_stands<'x>(
    alloc: Global,
    state: &'x StateDecl,
    places: &[Option<NmRef<'x>>],
) -> Result<Items<Standing<'x>>, Memory>
    ensures { IfOk result (λ stands. stands_of stands ≡
        typing.state_stands (state_of state.now) (places_of places.now)) }
{
    let mut stands = Items::new(alloc);
    add_fields(&mut stands, state.fields.as_slice(), places)?;
    Ok(stands)
}

/// What stands for the words of an event's declaration: the event's arguments. It refuses out of
/// memory alone.
pub(crate) fn event_stands<'x>(
    alloc: Global,
    event: &'x EventDecl,
    args: &'x [Nm],
) -> Result<Items<Standing<'x>>, Memory>
    ensures { IfOk result (λ stands. stands_of stands ≡
        typing.event_stands (event_of event.now) (map nm_of args.now)) }
{
    let mut stands = Items::new(alloc);
    add_params(&mut stands, event.params.as_slice(), args)?;
    Ok(stands)
}

/// What stands for a word of a declaration, if anything does; `self` stands for itself.
pub(crate) fn stands_for<'x>(stands: &[Standing<'x>], name: NmRef<'x>) -> Option<NmRef<'x>>
    ensures { option_map nm_ref_of result ≡ typing.stands_for (stands_of stands.now) (nm_ref_of name.entry) }
{
    let NmRef::Named(id) = name else {
        return Some(name);
    };
    for standing in stands {
        if id.word.same(standing.word) {
            return standing.place;
        }
    }
    None
}

/// What stands for the arguments of an event that a declaration names, or `None` where something
/// stands for only some of them. It refuses out of memory alone.
pub(crate) fn atom_names<'x>(
    alloc: Global,
    stands: &[Standing<'x>],
    atom: &'x AtomText,
) -> Result<Option<Items<NmRef<'x>>>, Memory>
    ensures { IfOk result (λ names. option_map (map nm_ref_of) names ≡
        typing.atom_names (stands_of stands.now) (atom_of atom.now)) }
{
    let mut names = Items::new(alloc);
    for arg in atom.args.as_slice() {
        let Some(name) = stands_for(stands, NmRef::of(arg)) else {
            return Ok(None);
        };
        names.push(name)?;
    }
    Ok(Some(names))
}
