//! How many members the lists of a file may have, and the first list that has more.

pub(crate) mod counts;
pub(crate) mod declarations;
pub(crate) mod expressions;
pub(crate) mod files;
pub(crate) mod handlers;
pub(crate) mod labels;
pub(crate) mod least;
pub(crate) mod members;
pub(crate) mod plans;
pub(crate) mod principals;
pub(crate) mod recipes;
