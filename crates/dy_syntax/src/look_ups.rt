ghost use Rattle.std.specs.Prelude.{◌≡◌, map};
ghost use Rattle.std.specs.Option.{option_map};
ghost use Rattle.dy_syntax.specs.Meaning.{decl_of, usage_of, case_of, event_of, state_of, handler_of};
ghost use Rattle.dy_syntax.specs.LookUps as look_ups;

use crate::declarations::{CaseDecl, Decl, EventDecl, StateDecl, UsageDecl};
use crate::statements::Handler;
use dy_term::{Text, Word};

/// The first usage of this name that is declared.
pub fn usage_named<'f>(decls: &'f [Decl], name: &Word) -> Option<&'f UsageDecl>
    ensures { option_map (λ usage. usage_of usage.now) result ≡ look_ups.usage_named (map decl_of decls.now) name.now }
{
    for decl in decls {
        if let Decl::Usage(usage) = decl {
            if usage.name.word.same(name) {
                return Some(usage);
            }
        }
    }
    None
}

/// The first case of this usage with this tag that is declared.
pub fn case_named<'f>(decls: &'f [Decl], usage: &Word, tag: &Text) -> Option<&'f CaseDecl>
    ensures { option_map (λ case. case_of case.now) result ≡ look_ups.case_named (map decl_of decls.now) usage.now
        tag.now }
{
    for decl in decls {
        if let Decl::Case(case) = decl {
            if case.usage.word.same(usage) && case.tag.text.same(tag) {
                return Some(case);
            }
        }
    }
    None
}

/// The first event of this name that is declared.
pub fn event_named<'f>(decls: &'f [Decl], name: &Word) -> Option<&'f EventDecl>
    ensures { option_map (λ event. event_of event.now) result ≡ look_ups.event_named (map decl_of decls.now) name.now }
{
    for decl in decls {
        if let Decl::Event(event) = decl {
            if event.name.word.same(name) {
                return Some(event);
            }
        }
    }
    None
}

/// The first state of this name that is declared.
pub fn state_named<'f>(decls: &'f [Decl], name: &Word) -> Option<&'f StateDecl>
    ensures { option_map (λ state. state_of state.now) result ≡ look_ups.state_named (map decl_of decls.now) name.now }
{
    for decl in decls {
        if let Decl::State(state) = decl {
            if state.name.word.same(name) {
                return Some(state);
            }
        }
    }
    None
}

/// The first handler of this name that is declared.
pub fn handler_named<'f>(decls: &'f [Decl], name: &Word) -> Option<&'f Handler>
    ensures { option_map (λ handler. handler_of handler.now) result ≡ look_ups.handler_named (map decl_of decls.now)
        name.now }
{
    for decl in decls {
        if let Decl::Handler(handler) = decl {
            if handler.name.word.same(name) {
                return Some(handler);
            }
        }
    }
    None
}
