use dy_core::StartStep;
use dy_label::Corruption;
use dy_recipe::Recipe;

/// What a step of a plan comes to in a trace.
#[derive(Debug, Drop)]
pub enum Resolved {
    Start(StartStep),
    Corrupt(Corruption),
    Forge,
    Inject(Recipe),
    /// A step that it names has not the entry that is asked of it.
    Unresolved,
}
