//! Laws of the rule, of each table that it allows.
ghost use Rattle.dy_turn.specs.Rule.{AllOrSpent, OneWorks};

use crate::counted::Counted;

/// The value is with one seat at a time: no two seats of a turn have taken it.
pub fn one_seat_works<T: Counted>()
    ensures { OneWorks T.history T.same_base }
{}

/// A seat has all room exactly where each other seat that was made has been joined.
pub fn all_room_is_no_other_seat<T: Counted>()
    ensures { AllOrSpent T.history T.same_base }
{}
