ghost use Rattle.std.specs.Prelude.{◌≡◌, [], ◌∷◌};
ghost use Rattle.dy_typing.specs.Demands.{Demand, condition_of, field_of};
ghost use Rattle.dy_check.specs.declared.settings.Setting as setting;
ghost use Rattle.dy_check.specs.declared.knowledge.Knowledge as knowledge;
ghost use Rattle.dy_check.specs.MirrorUnmet.{FindsUnmet, TellsIfMet};

/// The condition of what is sent.
pub(crate) const SENT: u8 = 1;
/// The condition of keys.
pub(crate) const KEY: u8 = 2;
/// The condition of who may read.
pub(crate) const READER: u8 = 3;
/// The condition of fields that are sealed.
pub(crate) const FIELD: u8 = 4;
/// The condition of events that a case requires.
pub(crate) const EVENT: u8 = 5;
/// The condition of partners.
pub(crate) const PARTNER: u8 = 6;
/// The condition of what is kept in a state.
pub(crate) const KEPT: u8 = 7;
/// The condition of the fields of a state.
pub(crate) const STORED: u8 = 8;
/// The condition of what is certified.
pub(crate) const CERTIFIED: u8 = 9;

/// A demand that is not met: its condition, and the number of its field, event or partner, or 0.
#[derive(Clone, Copy)]
pub(crate) struct Unmet {
    pub(crate) condition: u8,
    pub(crate) field: u8,
}

/// The demand of this condition and this field, where it is not met.
pub(crate) fn unless_met(met: bool, condition: u8, field: u8) -> Option<Unmet>
    ensures { (setting : setting.Setting) (known : knowledge.Knowledge) (demand : Demand) →
        TellsIfMet setting known demand met → condition ≡ condition_of demand → field ≡ field_of demand →
        FindsUnmet setting known (demand ∷ []) result }
{
    if met {
        None
    } else {
        Some(Unmet { condition, field })
    }
}
