use crate::labels::LabelText;
use crate::names::{AtomText, Id, KindText, Quote, UseText};
use crate::statements::Handler;
use sqlite_items::Items;

/// The type of a field.
#[derive(Debug, Drop)]
pub enum FieldType {
    Name,
    Any,
    Upto(LabelText),
    Secret(LabelText),
    Key(LabelText, UseText),
    Pk(LabelText, UseText),
    Vk(LabelText, UseText),
}

/// A field of a case or a state, and the line of the first word of its type.
#[derive(Debug, Drop)]
pub struct Field {
    pub name: Id,
    pub kind: FieldType,
    pub kind_line: u32,
}

/// A row of a table of derived keys: for this text, a key of this usage.
#[derive(Debug, Drop)]
pub struct Row {
    pub text: Quote,
    pub kind: KindText,
    pub kind_line: u32,
    pub usage: Id,
}

/// A usage, and its table where it is of kind `kdf`.
#[derive(Debug, Drop)]
pub struct UsageDecl {
    pub line: u32,
    pub kind: KindText,
    pub kind_line: u32,
    pub name: Id,
    pub params: Items<Id>,
    pub rows: Items<Row>,
}

/// A case of a usage: a tag with its fields, and the events that must have happened.
#[derive(Debug, Drop)]
pub struct CaseDecl {
    pub line: u32,
    pub usage: Id,
    pub tag: Quote,
    pub fields: Items<Field>,
    pub requires_: Items<AtomText>,
}

/// A parameter of an event, which takes a name alone where `is_name` says so.
#[derive(Debug, Drop)]
pub struct Param {
    pub line: u32,
    pub is_name: bool,
    pub name: Id,
}

/// An event that stands before, unless the label is open.
#[derive(Debug, Drop)]
pub struct Partner {
    pub atom: AtomText,
    pub unless: LabelText,
}

/// An event with its partners.
#[derive(Debug, Drop)]
pub struct EventDecl {
    pub line: u32,
    pub name: Id,
    pub params: Items<Param>,
    pub after: Items<Partner>,
}

/// A state, and what a handler knows that finds it.
#[derive(Debug, Drop)]
pub struct StateDecl {
    pub line: u32,
    pub name: Id,
    pub lasting: bool,
    pub fields: Items<Field>,
    pub knows: Items<Partner>,
}

#[derive(Debug, Drop)]
pub enum Decl {
    Usage(UsageDecl),
    Case(CaseDecl),
    Event(EventDecl),
    State(StateDecl),
    Handler(Handler),
}
