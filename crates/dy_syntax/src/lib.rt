//! Protocol files as values, and when they are well formed.
#![tactic(auto)]

mod declarations;
mod expressions;
mod files;
mod labels;
mod least;
mod look_ups;
mod names;
mod parts;
mod places;
mod plans;
mod recipes;
mod refusals;
mod rules;
mod sameness;
mod scopes;
mod statements;

pub use declarations::{
    CaseDecl, Decl, EventDecl, Field, FieldType, Param, Partner, Row, StateDecl, UsageDecl,
};
pub use expressions::{Expr, Tuple, line_of};
pub use files::File;
pub use labels::LabelText;
pub use look_ups::{case_named, event_named, handler_named, state_named, usage_named};
pub use names::{AtomText, Id, KindText, Nm, Quote, UseText};
pub use plans::{Action, OnStep, Plan, Round, Step};
pub use recipes::{Numbered, RecipeText};
pub use refusals::{FileError, well_formed};
pub use sameness::files::same_file;
pub use statements::{Act, Handler, OnPart, Pattern, Statement};

#[cfg(test)]
mod tests;
