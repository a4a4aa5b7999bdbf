use dy_label::Kind;
use dy_syntax::{Act, OnPart};

/// A line of a handler that runs. It is the state that it goes on from, or a statement and the kind of the usage
/// that it names.
#[derive(Debug, Drop)]
pub(crate) enum Line {
    GoesOn(OnPart),
    Does(Kind, Act),
}
