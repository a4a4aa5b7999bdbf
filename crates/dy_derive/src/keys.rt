ghost use Rattle.std.specs.Prelude.{◌≡◌, nat_eq};
ghost use Rattle.std.proofs.Common.{rules};
ghost use Rattle.std.specs.Cmp.{partial_equiv_from_equiv};
ghost use Rattle.std.specs.Cmp.Lexicographic.{nat_list_eq_equiv, pointwise};
ghost use Rattle.std.specs.Cmp.Rules.{hashing};
ghost use Rattle.std.specs.Hash as fed;

use dy_term::{Text, Word};
use std::hash::{Hash, Hasher};
use std::marker::Model;

/// A text by which nodes are found.
#[derive(Drop)]
pub(crate) struct TextKey {
    text: Text,
}

impl Model for TextKey {
    ghost use Rattle.std.specs.Prelude.{ℕ, List};

    ghost Value = { List ℕ };

    ghost view = { λ key. key.text };
}

impl TextKey {
    pub(crate) fn new(text: &Text) -> TextKey
        ensures { result ≡ text.now }
    {
        TextKey { text: text.copy() }
    }

    pub(crate) fn text(&self) -> &Text
        ensures { result.now ≡ self.now }
    {
        &self.text
    }
}

/// A name by which nodes are found.
#[derive(Drop)]
pub(crate) struct NameKey {
    name: Word,
}

impl Model for NameKey {
    ghost use Rattle.std.specs.Prelude.{ℕ, List};

    ghost Value = { List ℕ };

    ghost view = { λ key. key.name };
}

impl NameKey {
    pub(crate) fn new(name: &Word) -> NameKey
        ensures { result ≡ name.now }
    {
        NameKey { name: name.copy() }
    }

    pub(crate) fn name(&self) -> &Word
        ensures { result.now ≡ self.now }
    {
        &self.name
    }
}

impl PartialEq for TextKey {
    ghost eq = { λ a b. pointwise nat_eq a b };

    ghost laws = { partial_equiv_from_equiv nat_list_eq_equiv };

    fn eq(&self, other: &TextKey) -> bool {
        self.text.same(&other.text)
    }
}

impl Eq for TextKey {
    ghost laws = { nat_list_eq_equiv };
}

impl Hash for TextKey {
    ghost hash_input = { λ key. fed.slice fed.u8 key };

    ghost respects_eq = { Prim.search (hashing, rules) };

    fn hash<H: Hasher>(&self, state: &mut H) {
        self.text.as_bytes().hash(state);
    }
}

impl PartialEq for NameKey {
    ghost eq = { λ a b. pointwise nat_eq a b };

    ghost laws = { partial_equiv_from_equiv nat_list_eq_equiv };

    fn eq(&self, other: &NameKey) -> bool {
        self.name.same(&other.name)
    }
}

impl Eq for NameKey {
    ghost laws = { nat_list_eq_equiv };
}

impl Hash for NameKey {
    ghost hash_input = { λ key. fed.slice fed.u8 key };

    ghost respects_eq = { Prim.search (hashing, rules) };

    fn hash<H: Hasher>(&self, state: &mut H) {
        self.name.as_bytes().hash(state);
    }
}
