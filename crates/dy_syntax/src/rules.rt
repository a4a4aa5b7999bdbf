//! The rules of well-formedness, each of which takes note of the lines at which it is broken.

pub(crate) mod declared;
pub(crate) mod doubles;
pub(crate) mod kinds;
pub(crate) mod lengths;
pub(crate) mod names;
pub(crate) mod plans;
pub(crate) mod sessions;
pub(crate) mod words;
