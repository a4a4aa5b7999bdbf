//! A lock by which threads take turns at one value, whose history only grows.
//! Each seat knows what it has seen of the history, and which items are its own.
#![tactic(auto)]

mod closing;
mod counted;
mod known;
mod laws;
mod making;
mod plays;
mod rooms;
mod seats;
mod steps;
mod taking;
mod turns;

pub use counted::{Counted, Memory};
pub use laws::{all_room_is_no_other_seat, one_seat_works};
pub use making::make;
pub use seats::{Full, Held, Seat};
pub use turns::{NotWhole, Turn};

#[cfg(test)]
mod tests;
