use crate::expressions::Expr;
use crate::labels::LabelText;
use crate::names::{AtomText, Id, Nm, Quote, UseText};
use sqlite_items::Items;

/// What a field is matched against.
#[derive(Debug, Drop)]
pub enum Pattern {
    /// Binds a variable.
    Bind(Id),
    /// Binds a name.
    Named { line: u32, name: Id },
    /// Compares.
    Equal { line: u32, to: Nm },
}

/// The state that a handler goes on from.
#[derive(Debug, Drop)]
pub struct OnPart {
    pub line: u32,
    pub state: Id,
    pub pats: Items<Pattern>,
}

/// What a statement does. `Recall`, `Opened` and `Popened` are `use`, `open` and `popen`.
#[derive(Debug, Drop)]
pub enum Act {
    New {
        name: Id,
        usage: UseText,
        label: LabelText,
    },
    Let {
        name: Id,
        value: Expr,
    },
    Event(AtomText),
    Send(Expr),
    Store {
        state: Id,
        fields: Items<Expr>,
    },
    Certify {
        key: Id,
        usage: Id,
    },
    Find {
        usage: Id,
        owner: Nm,
        name: Id,
    },
    Recall {
        state: Id,
        pats: Items<Pattern>,
    },
    Split {
        value: Id,
        tag: Quote,
        pats: Items<Pattern>,
    },
    Opened {
        value: Id,
        key: Id,
        usage: UseText,
        tag: Quote,
        pats: Items<Pattern>,
        ad: Expr,
    },
    Popened {
        value: Id,
        key: Id,
        usage: UseText,
        tag: Quote,
        pats: Items<Pattern>,
    },
    Verify {
        value: Id,
        key: Id,
        usage: UseText,
        tag: Quote,
        pats: Items<Pattern>,
    },
    Check {
        value: Id,
        key: Id,
        usage: UseText,
        tag: Quote,
        args: Items<Nm>,
    },
    Same(Nm, Nm),
}

/// A statement, and the line of its first token.
#[derive(Debug, Drop)]
pub struct Statement {
    pub line: u32,
    pub act: Act,
}

/// A handler: the state that it goes on from, its arguments, the message that it receives, and its statements.
#[derive(Debug, Drop)]
pub struct Handler {
    pub line: u32,
    pub name: Id,
    pub on: Option<OnPart>,
    pub args: Items<Id>,
    pub recv: Option<Id>,
    pub body: Items<Statement>,
}
