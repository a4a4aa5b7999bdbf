//! Which entry may follow a trace, and the interleavings of a protocol file.
#![tactic(auto)]

mod laws;
pub mod limits;
mod recipe_laws;

pub use laws::{
    a_longer_interleaving, a_longer_short_trace, one_file_for_a_trace, opening_trace,
    prefixes_are_interleavings, values_are_small, versions_stand_once,
};
pub use recipe_laws::a_recipe_gives_what_is_derived;
