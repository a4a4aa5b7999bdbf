use dy_label::Label;
use dy_recipe::Recipe;

/// What an attacker knows of a nonce that a handler made.
#[derive(Debug, Drop)]
pub(crate) enum Knowing {
    Unknown,
    /// It is known from this entry on, and its label was open then.
    Open { from: u32 },
    /// It is known from this entry on, and its label was not open then. The recipe is there before a later entry is.
    Breach { from: u32, recipe: Option<Recipe> },
}

/// What is kept of a nonce that a handler made.
#[derive(Debug, Drop)]
pub(crate) struct Secret {
    pub(crate) label: Label,
    pub(crate) knowing: Knowing,
}
