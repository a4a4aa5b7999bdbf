use crate::names::Id;
use crate::recipes::{Numbered, RecipeText};
use sqlite_items::Items;

/// The step whose session a step goes on.
#[derive(Debug, Drop)]
pub struct OnStep {
    pub line: u32,
    pub step: Id,
}

/// What a step does.
#[derive(Debug, Drop)]
pub enum Action {
    Start {
        principal: Id,
        handler: Id,
        args: Items<Id>,
        on: Option<OnStep>,
        msg: Option<Numbered>,
    },
    Corrupt {
        principal: Id,
        session: Id,
        version: u32,
    },
    Forge,
    Inject(RecipeText),
}

/// A step with its name.
#[derive(Debug, Drop)]
pub struct Step {
    pub line: u32,
    pub name: Id,
    pub action: Action,
}

/// The steps of a round.
#[derive(Debug, Drop)]
pub struct Round {
    pub line: u32,
    pub steps: Items<Step>,
}

/// What a run does, round by round.
#[derive(Debug, Drop)]
pub struct Plan {
    pub rounds: Items<Round>,
}
