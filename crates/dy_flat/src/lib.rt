//! Terms kept flat, as runs of nodes, so that their parts are lent and not copied.
#![tactic(auto)]

mod building;
mod comparing;
mod contents;
mod converting;
mod copying;
mod flat_nodes;
mod flat_terms;
mod growing;
mod indexing;
mod laws;
mod lent_nodes;
mod opening;
mod parts;
mod places;
mod reading;
mod runs;
mod shapes;
mod steps;
mod tuples;
mod views;
mod walking;

pub use building::{aead, hash, kdf, lit, mac, name, nonce, pair, penc, pk, sign, tuple, vk};
pub use comparing::same;
pub use converting::{from_tree, to_tree};
pub use copying::copy_of;
pub use flat_terms::FlatTerm;
pub use laws::{part_is_smaller, steps_give_term};
pub use opening::{aead_message, aead_message_with, penc_message, signed_message};
pub use parts::{Parts, body_part, data_part, first, inner, key_part, part_at, second, take_apart};
pub use reading::{nodes, shape};
pub use shapes::Shape;
pub use steps::Step;
pub use tuples::{Fields, tuple_fields};
pub use views::View;
pub use walking::Walk;

#[cfg(test)]
mod tests;
