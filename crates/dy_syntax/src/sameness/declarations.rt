ghost use Rattle.std.specs.Prelude.{◌≡◌, ◌≢◌, true, false};
ghost use Rattle.dy_syntax.specs.Declarations as d;
ghost use Rattle.dy_syntax.specs.Files as f;
ghost use Rattle.dy_syntax.specs.Meaning.{field_type_of, field_of, row_of, usage_of, case_of, param_of, partner_of, event_of, state_of, decl_of};
ghost use Rattle.dy_syntax.specs.SameFiles as same;

use crate::declarations::{
    CaseDecl, Decl, EventDecl, Field, FieldType, Param, Partner, Row, StateDecl, UsageDecl,
};
use crate::sameness::labels::same_label;
use crate::sameness::statements::same_handler;
use crate::sameness::{Part, same_parts};

fn same_type(kind: &FieldType, other: &FieldType) -> bool
    ensures same { result ≡ true → same.bare_type (field_type_of kind.now) ≡ same.bare_type (field_type_of other.now) }
    ensures other { result ≡ false → same.bare_type (field_type_of kind.now) ≢ same.bare_type
        (field_type_of other.now) }
{
    match (kind, other) {
        (FieldType::Name, FieldType::Name) | (FieldType::Any, FieldType::Any) => true,
        (FieldType::Upto(label), FieldType::Upto(other))
        | (FieldType::Secret(label), FieldType::Secret(other)) => same_label(label, other),
        (FieldType::Key(label, usage), FieldType::Key(other_label, other))
        | (FieldType::Pk(label, usage), FieldType::Pk(other_label, other))
        | (FieldType::Vk(label, usage), FieldType::Vk(other_label, other)) => {
            same_label(label, other_label) && usage.same(other)
        }
        _ => false,
    }
}

impl Part for Field {
    ghost Plain = { d.Field };

    ghost plain = { field_of };

    ghost bare = { same.bare_field };

    fn same(&self, other: &Field) -> bool {
        self.name.same(&other.name) && same_type(&self.kind, &other.kind)
    }
}

impl Part for Row {
    ghost Plain = { d.Row };

    ghost plain = { row_of };

    ghost bare = { same.bare_row };

    fn same(&self, other: &Row) -> bool {
        self.text.same(&other.text) && self.kind == other.kind && self.usage.same(&other.usage)
    }
}

impl Part for Param {
    ghost Plain = { d.Param };

    ghost plain = { param_of };

    ghost bare = { same.bare_param };

    fn same(&self, other: &Param) -> bool {
        self.is_name == other.is_name && self.name.same(&other.name)
    }
}

impl Part for Partner {
    ghost Plain = { d.Partner };

    ghost plain = { partner_of };

    ghost bare = { same.bare_partner };

    fn same(&self, other: &Partner) -> bool {
        self.atom.same(&other.atom) && same_label(&self.unless, &other.unless)
    }
}

fn same_usage(usage: &UsageDecl, other: &UsageDecl) -> bool
    ensures same { result ≡ true → same.bare_usage (usage_of usage.now) ≡ same.bare_usage (usage_of other.now) }
    ensures other { result ≡ false → same.bare_usage (usage_of usage.now) ≢ same.bare_usage (usage_of other.now) }
{
    usage.kind == other.kind
        && usage.name.same(&other.name)
        && same_parts(usage.params.as_slice(), other.params.as_slice())
        && same_parts(usage.rows.as_slice(), other.rows.as_slice())
}

fn same_case(case: &CaseDecl, other: &CaseDecl) -> bool
    ensures same { result ≡ true → same.bare_case (case_of case.now) ≡ same.bare_case (case_of other.now) }
    ensures other { result ≡ false → same.bare_case (case_of case.now) ≢ same.bare_case (case_of other.now) }
{
    case.usage.same(&other.usage)
        && case.tag.same(&other.tag)
        && same_parts(case.fields.as_slice(), other.fields.as_slice())
        && same_parts(case.requires_.as_slice(), other.requires_.as_slice())
}

fn same_event(event: &EventDecl, other: &EventDecl) -> bool
    ensures same { result ≡ true → same.bare_event (event_of event.now) ≡ same.bare_event (event_of other.now) }
    ensures other { result ≡ false → same.bare_event (event_of event.now) ≢ same.bare_event (event_of other.now) }
{
    event.name.same(&other.name)
        && same_parts(event.params.as_slice(), other.params.as_slice())
        && same_parts(event.after.as_slice(), other.after.as_slice())
}

fn same_state(state: &StateDecl, other: &StateDecl) -> bool
    ensures same { result ≡ true → same.bare_state (state_of state.now) ≡ same.bare_state (state_of other.now) }
    ensures other { result ≡ false → same.bare_state (state_of state.now) ≢ same.bare_state (state_of other.now) }
{
    state.name.same(&other.name)
        && state.lasting == other.lasting
        && same_parts(state.fields.as_slice(), other.fields.as_slice())
        && same_parts(state.knows.as_slice(), other.knows.as_slice())
}

impl Part for Decl {
    ghost Plain = { f.Decl };

    ghost plain = { decl_of };

    ghost bare = { same.bare_decl };

    fn same(&self, other: &Decl) -> bool {
        match (self, other) {
            (Decl::Usage(usage), Decl::Usage(other)) => same_usage(usage, other),
            (Decl::Case(case), Decl::Case(other)) => same_case(case, other),
            (Decl::Event(event), Decl::Event(other)) => same_event(event, other),
            (Decl::State(state), Decl::State(other)) => same_state(state, other),
            (Decl::Handler(handler), Decl::Handler(other)) => same_handler(handler, other),
            _ => false,
        }
    }
}
