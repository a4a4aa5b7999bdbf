//! Recipes, by which an attacker makes a value: moves, each a leaf that is given or an operation over earlier moves.
#![tactic(auto)]

mod applying;
mod given;
mod laws;
mod lent;
mod moves;
mod trimming;

pub use applying::apply;
pub use given::Given;
pub use laws::value_by_places;
pub use moves::{Move, Recipe};
pub use trimming::trim;

#[cfg(test)]
mod tests;
