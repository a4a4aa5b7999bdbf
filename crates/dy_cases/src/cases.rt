ghost use Rattle.std.specs.Prelude.{◌≡◌, IfOk, map};
ghost use Rattle.std.specs.Option.{option_map, option_copied};
ghost use Rattle.dy_syntax.specs.Meaning as meaning;
ghost use Rattle.dy_syntax.specs.Meaning.{decl_of, handler_of};
ghost use Rattle.dy_syntax.specs.LookUps.{usage_named, case_named, event_named, state_named};
ghost use Rattle.dy_cases.specs.DeclaredParts.{handlers_in, row_named};
ghost use Rattle.dy_cases.specs.Derived.{derived_usage};

use crate::kinds::kind_of;
use crate::rows::row_for;
use crate::tables::{Tables, tables_of};
use dy_label::{Kind, Usage, copy_words};
use dy_syntax::{CaseDecl, Decl, EventDecl, File, Handler, Row, StateDecl, UsageDecl};
use dy_term::{Memory, Text, Word};
use std::alloc::Global;
use std::marker::Model;

/// What a file declares, found by name. Contracts see it as the file's declarations.
#[derive(Drop)]
pub struct Cases<'a> {
    decls: &'a [Decl],
    tables: Tables<'a>,
}

impl<'a> Model for Cases<'a> {
    ghost use Rattle.std.specs.Prelude.{List};
    ghost use Rattle.dy_syntax.specs.declared.declarations.Decl.{Decl};
    ghost use Rattle.std.specs.Coded.{codes};
    ghost use Rattle.dy_syntax.specs.contracts.labels.LabelText as label;
    ghost use Rattle.dy_syntax.specs.contracts.expressions.Expr as expr;

    ghost Value = { List Decl };

    ghost coded = { Prim.hlevel (codes, label.the_row.coded, expr.the_row.coded) };

    ghost use Rattle.std.specs.Prelude.{map};
    ghost use Rattle.dy_syntax.specs.Meaning.{decl_of};
    ghost use Rattle.dy_cases.specs.MirrorCases.{HasDeclared};

    ghost view = { λ c. c.decls.now };

    ghost invariant = { λ c. HasDeclared c.tables (map decl_of c.decls.now) };
}

impl<'a> Cases<'a> {
    /// The tables of what a file declares. It refuses out of memory alone.
    pub fn of(alloc: Global, file: &'a File) -> Result<Cases<'a>, Memory>
        ensures { IfOk result (λ cases. cases ≡ file.now.decls) }
    {
        let decls = file.decls.as_slice();
        Ok(Cases {
            decls,
            tables: tables_of(alloc, decls)?,
        })
    }

    /// The usage of this name, or `None` where none is declared.
    pub fn usage_named(&self, name: &Word) -> Option<&'a UsageDecl>
        ensures { option_map meaning.usage_of (option_copied result) ≡ usage_named (map decl_of self.now) name.now }
    {
        self.tables.usages.get(name.as_bytes()).copied()
    }

    /// The case of this usage with this tag, or `None` where none is declared.
    pub fn case_of(&self, usage: &Word, tag: &Text) -> Option<&'a CaseDecl>
        ensures { option_map meaning.case_of (option_copied result) ≡
            case_named (map decl_of self.now) usage.now tag.now }
    {
        self.tables
            .cases
            .get(&(usage.as_bytes(), tag.as_bytes()))
            .copied()
    }

    /// The event of this name, or `None` where none is declared.
    pub fn event_named(&self, name: &Word) -> Option<&'a EventDecl>
        ensures { option_map meaning.event_of (option_copied result) ≡ event_named (map decl_of self.now) name.now }
    {
        self.tables.events.get(name.as_bytes()).copied()
    }

    /// The state of this name, or `None` where none is declared.
    pub fn state_named(&self, name: &Word) -> Option<&'a StateDecl>
        ensures { option_map meaning.state_of (option_copied result) ≡ state_named (map decl_of self.now) name.now }
    {
        self.tables.states.get(name.as_bytes()).copied()
    }

    /// The handlers in the order of the file.
    pub fn handlers(&self) -> &[&'a Handler]
        ensures { map (λ handler. handler_of handler.now) result.now ≡ handlers_in (map decl_of self.now) }
    {
        self.tables.handlers.as_slice()
    }

    /// The row for this text in the table of the usage of this name. `None` where there is no such
    /// usage or no such row.
    pub fn row_named(&self, usage: &Word, text: &Text) -> Option<&'a Row>
        ensures { option_map meaning.row_of (option_copied result) ≡
            row_named (map decl_of self.now) usage.now text.now }
    {
        match self.usage_named(usage) {
            None => None,
            Some(declared) => row_for(declared.rows.as_slice(), text),
        }
    }

    /// The usage of a key that is derived with this text from a key of this usage, for the same
    /// owners. `None` where the usage is not of kind `kdf` or its table has no such text. It refuses
    /// out of memory alone.
    pub fn derived(
        &self,
        alloc: Global,
        usage: &Usage,
        text: &Text,
    ) -> Result<Option<Usage>, Memory>
        ensures { IfOk result (λ derived. derived ≡ derived_usage (map decl_of self.now) usage.now text.now) }
    {
        if usage.kind != Kind::Kdf {
            return Ok(None);
        }
        let Some(row) = self.row_named(&usage.name, text) else {
            return Ok(None);
        };
        Ok(Some(Usage {
            kind: kind_of(row.kind),
            name: row.usage.word.copy(),
            owners: copy_words(alloc, usage.owners.as_slice())?,
        }))
    }
}
