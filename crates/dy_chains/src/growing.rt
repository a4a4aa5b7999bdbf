ghost use Rattle.std.specs.Prelude.{◌≡◌, ◌<◌, ◌≤◌, ◌+◌, ◌^◌, ◌++◌, length, vec_len, vec_capacity, OnOk, IfOk};

use crate::rules::Rule;
use dy_term::Memory;

/// The count as a number of 32 bits, or out of memory.
pub(crate) fn as_number(count: usize) -> Result<u32, Memory>
    ensures { IfOk result (λ number. number ≡ count) }
{
    match u32::try_from(count) {
        Ok(number) => Ok(number),
        Err(_) => Err(Memory),
    }
}

/// Makes room for so many more rules. It refuses out of memory, which it also is where they would be 2^32 or more.
pub(crate) fn make_room(rules: &mut Vec<Rule>, more: usize) -> Result<(), Memory>
    ensures items { rules.new.items ≡ rules.old.items }
    ensures few { OnOk result (length rules.old.items + more < 2 ^ 32) }
    ensures room { OnOk result (vec_len rules.new + more ≤ vec_capacity rules.new) }
{
    match rules.len().checked_add(more) {
        Some(count) if count <= u32::MAX as usize => Ok(rules.reserve(more)?),
        _ => Err(Memory),
    }
}

/// Adds rules where there is room for them.
pub(crate) fn extend_within(rules: &mut Vec<Rule>, more: &[Rule])
    requires { vec_len rules.old + length more.now ≤ vec_capacity rules.old }
    ensures { rules.new.items ≡ rules.old.items ++ more.now }
{
    match rules.extend_from_slice(more) {
        Ok(()) => (),
        Err(_) => unreachable!(),
    }
}
