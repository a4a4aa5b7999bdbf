/// How many entries of each kind a trace has. Its `Setup` is among the total alone.
#[derive(Clone, Copy, Debug, PartialEq, Eq)]
pub struct Counts {
    /// All entries.
    pub total: u32,
    /// Instances that begin.
    pub start: u32,
    /// Nonces of handlers.
    pub fresh: u32,
    /// Messages of handlers.
    pub message: u32,
    /// Versions of states.
    pub state: u32,
    /// Events.
    pub event: u32,
    /// Certificates.
    pub cert: u32,
    /// Instances that end after their last statement.
    pub done: u32,
    /// Instances that end at a statement.
    pub stopped: u32,
    /// Corruptions.
    pub corrupt: u32,
    /// Nonces of the attacker.
    pub forge: u32,
    /// Messages of the attacker.
    pub inject: u32,
    /// Steps that could not be resolved.
    pub skip: u32,
}
