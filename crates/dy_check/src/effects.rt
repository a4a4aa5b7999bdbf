//! What is known after a statement, one file for each kind of building block.

pub(crate) mod cases;
pub(crate) mod checks;
pub(crate) mod events;
pub(crate) mod fields;
pub(crate) mod keys;
pub(crate) mod openings;
pub(crate) mod readings;
pub(crate) mod starts;
pub(crate) mod statements;
pub(crate) mod states;
