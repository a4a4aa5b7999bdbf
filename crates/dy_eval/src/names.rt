ghost use Rattle.dy_eval.specs.MirrorSelf.{IsSelf, IsSelf-prop};

use crate::written::Written;
use dy_flat::FlatTerm;
use dy_term::Word;
use std::alloc::Global;

/// What is written in place of the names in a handler's text: for `self`, and for words.
#[derive(Debug, Drop)]
pub(crate) struct Names {
    pub(crate) alloc: Global,
    /// The bytes in place of `self`.
    pub(crate) me: FlatTerm,
    pub(crate) principal: Word,
    pub(crate) session: u32,
    pub(crate) written: Vec<Written>,
    ghost is_self: { IsSelf me principal } by { IsSelf-prop me principal },
}
