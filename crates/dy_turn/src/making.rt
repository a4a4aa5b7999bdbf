//! How a turn is made.
ghost use Rattle.std.specs.Prelude.{◌≡◌, ◌≤◌, ◌-◌, [], ◌∷◌, length, IfOk};
ghost use Rattle.dy_turn.specs.Seats.{first_value, start, seats as seats_of, IsNew, Owns};

use crate::counted::{Counted, Memory};
use crate::known::Origin;
use crate::seats::Seat;
use crate::turns::Turn;
use atomic_table::Table;
use std::alloc::Global;
use std::snapshot::Snapshot;

/// Makes a turn of a value for 1 to 80 seats, and its first seat, which has room for all others.
pub fn make<T: Counted>(alloc: Global, value: T, seats: u32) -> Result<(Turn<T>, Seat<T>), Memory>
    requires { (1 ≤ seats) × (seats ≤ 80) }
    ensures value { IfOk result (λ made. first_value made.0 ≡ value) }
    ensures start { IfOk result (λ made. start made.0 ≡ length (T.history value)) }
    ensures seats { IfOk result (λ made. seats_of made.0 ≡ seats) }
    ensures seat { IfOk result (λ made. IsNew made.0 made.1 (T.history value) (seats - 1)) }
    ensures owns { IfOk result (λ made. Owns made.0 made.1) }
{
    let start = value.count();
    let origin = Origin {
        first: Snapshot::of(&value),
        start,
        seats,
    };
    let slots = one_slot(alloc, value)?;
    let Ok((board, token)) = Table::new(alloc, &[start, 0, 0], slots, &origin) else {
        return Err(Memory);
    };
    Ok((
        Turn { board, seats },
        Seat {
            token,
            room: seats - 1,
        },
    ))
}

fn one_slot<T: Drop>(alloc: Global, value: T) -> Result<Vec<Option<T>>, Memory>
    ensures { IfOk result (λ slots. slots.items ≡ Some value ∷ []) }
{
    let mut slots = Vec::new(alloc);
    match slots.push(Some(value)) {
        Ok(()) => Ok(slots),
        Err(_) => Err(Memory),
    }
}
