//! The places of a file: its parts of which a rule speaks, each in its scope.

pub(crate) mod bindings;
pub(crate) mod declarations;
pub(crate) mod files;
pub(crate) mod handlers;
pub(crate) mod plans;
