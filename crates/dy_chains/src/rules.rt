/// The facts from which a rule concludes another.
#[derive(Clone, Copy, Debug, PartialEq, Eq)]
pub enum Premises {
    None,
    One(u32),
    Two(u32, u32),
    Three(u32, u32, u32),
}

/// If the premises follow, so does the conclusion.
#[derive(Clone, Copy, Debug, PartialEq, Eq)]
pub struct Rule {
    pub premises: Premises,
    pub conclusion: u32,
}
