ghost use Rattle.std.specs.Prelude.{◌≡◌, true};
ghost use Rattle.dy_flat.specs.Differing.{all_differ};

use crate::places::copies;
use dy_term::{Memory, Text, Word};
use std::alloc::Global;

/// The texts and names that nodes have places of, each of them once.
#[derive(Debug, Drop)]
pub(crate) struct Contents {
    pub(crate) texts: Vec<Text>,
    pub(crate) names: Vec<Word>,
    ghost texts_once: { all_differ (λ text. text) texts.items ≡ true },
    ghost names_once: { all_differ (λ name. name) names.items ≡ true },
}

impl Contents {
    ghost use Rattle.std.specs.Prelude.{◌≡◌, [], Some, slice_get, IfOk, IsSome};

    pub(crate) fn new(alloc: Global) -> Contents
        ensures texts { result.texts.items ≡ [] }
        ensures names { result.names.items ≡ [] }
    {
        Contents {
            texts: Vec::new(alloc),
            names: Vec::new(alloc),
        }
    }

    pub(crate) fn text(&self, place: u32) -> &Text
        requires { IsSome (slice_get self.now.texts.items place) }
        ensures { slice_get self.now.texts.items place ≡ Some result.now }
    {
        &self.texts[place as usize]
    }

    pub(crate) fn name(&self, place: u32) -> &Word
        requires { IsSome (slice_get self.now.names.items place) }
        ensures { slice_get self.now.names.items place ≡ Some result.now }
    {
        &self.names[place as usize]
    }

    /// The same texts and names, in memory of their own.
    pub(crate) fn copy(&self, alloc: Global) -> Result<Contents, Memory>
        ensures texts { IfOk result (λ made. made.texts.items ≡ self.now.texts.items) }
        ensures names { IfOk result (λ made. made.names.items ≡ self.now.names.items) }
    {
        Ok(Contents {
            texts: copies(alloc, &self.texts)?,
            names: copies(alloc, &self.names)?,
        })
    }
}
