//! The parts of declarations, handlers and plans of which a rule speaks.

pub(crate) mod expressions;
pub(crate) mod labels;
pub(crate) mod recipes;
pub(crate) mod statements;
pub(crate) mod usages;
