ghost use Rattle.std.specs.Prelude.{◌≡◌, ℕ, ◌<◌, IfOk, length};
ghost use Rattle.dy_plan.specs.Dealing.{places_of_worker, IsShare};

use dy_syntax::Round;
use dy_term::Memory;
use std::alloc::Global;

/// The places of a round, counted from 0, that fall to a worker: in rising order those that leave its number modulo
/// the workers. The worker's number is below that of the workers. The one refusal is out of memory, which it also is
/// where a place takes more than 32 bits.
pub fn deal(alloc: Global, round: &Round, workers: u32, worker: u32) -> Result<Vec<u32>, Memory>
    requires { worker < workers }
    ensures { IfOk result (λ places. places.items ≡ places_of_worker workers worker (length round.now.steps)) }
{
    let mut places = Vec::new(alloc);
    for place in 0..round.steps.len() {
        if place % workers as usize == worker as usize {
            places.push(as_number(place)?)?;
        }
    }
    Ok(places)
}

/// The count as a number of 32 bits, or out of memory.
pub(crate) fn as_number(count: usize) -> Result<u32, Memory>
    ensures { IfOk result (λ number. number ≡ count) }
{
    match u32::try_from(count) {
        Ok(number) => Ok(number),
        Err(_) => Err(Memory),
    }
}

/// Each place below the count falls to one of the workers, and stands once in rising order among its places.
pub fn each_place_has_one_worker()
    ensures { (workers worker count : ℕ) → IsShare workers worker count (places_of_worker workers worker count) }
{}
