ghost use Rattle.std.specs.Prelude.{◌≡◌, [], ◌∷◌, ◌++◌, map, List, IfOk, OnOk};
ghost use Rattle.dy_syntax.specs.Files as files;
ghost use Rattle.dy_syntax.specs.Meaning.{decl_of};
ghost use Rattle.dy_cases.specs.MirrorCases.{HasDeclared};

use crate::first::add_first;
use dy_syntax::{CaseDecl, Decl, EventDecl, Handler, StateDecl, UsageDecl};
use dy_term::Memory;
use indexmap::IndexMap;
use sqlite_items::Items;
use std::alloc::Global;

/// Declarations of one kind by their names, in the order of the file.
type ByName<'a, D> = IndexMap<&'a [u8], &'a D>;

/// Of each kind the first declaration of each name, in the order of the file. A case is named by
/// its usage and its tag.
#[derive(Drop)]
pub(crate) struct Tables<'a> {
    pub(crate) usages: ByName<'a, UsageDecl>,
    pub(crate) cases: IndexMap<(&'a [u8], &'a [u8]), &'a CaseDecl>,
    pub(crate) events: ByName<'a, EventDecl>,
    pub(crate) states: ByName<'a, StateDecl>,
    pub(crate) handlers: Items<&'a Handler>,
}

/// Adds what one more declaration declares, or refuses out of memory.
fn add<'a>(tables: &mut Tables<'a>, decl: &'a Decl) -> Result<(), Memory>
    ensures { OnOk result ((decls : List files.Decl) → HasDeclared tables.old decls →
        HasDeclared tables.new (decls ++ decl_of decl.now ∷ [])) }
{
    match decl {
        Decl::Usage(usage) => add_first(&mut tables.usages, usage.name.word.as_bytes(), usage),
        Decl::Case(case) => {
            let name = (case.usage.word.as_bytes(), case.tag.text.as_bytes());
            add_first(&mut tables.cases, name, case)
        }
        Decl::Event(event) => add_first(&mut tables.events, event.name.word.as_bytes(), event),
        Decl::State(state) => add_first(&mut tables.states, state.name.word.as_bytes(), state),
        Decl::Handler(handler) => Ok(tables.handlers.push(handler)?),
    }
}

/// The tables of these declarations. It refuses out of memory alone.
pub(crate) fn tables_of(alloc: Global, decls: &[Decl]) -> Result<Tables<'_>, Memory>
    ensures { IfOk result (λ tables. HasDeclared tables (map decl_of decls.now)) }
{
    let mut tables = Tables {
        usages: IndexMap::new(alloc),
        cases: IndexMap::new(alloc),
        events: IndexMap::new(alloc),
        states: IndexMap::new(alloc),
        handlers: Items::new(alloc),
    };
    for decl in decls {
        add(&mut tables, decl)?;
    }
    Ok(tables)
}
