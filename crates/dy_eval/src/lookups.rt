ghost use Rattle.std.specs.Prelude.{◌≡◌, map, IfOk};
ghost use Rattle.std.specs.Option.{option_map, option_copied};
ghost use Rattle.std.specs.List.{filter_map};
ghost use Rattle.dy_term.specs.Terms.{Name};
ghost use Rattle.dy_flat.specs.Views.{tree_of};
ghost use Rattle.dy_syntax.specs.Meaning.{id_of, nm_of};
ghost use Rattle.dy_eval.specs.Names.{bytes_at, bytes_for, principal_in, principal_for};
ghost use Rattle.dy_eval.specs.NamesMeaning.{names_of};

use crate::names::Names;
use dy_flat::{Parts, View, take_apart};
use dy_syntax::Nm;
use dy_term::{Memory, Word};
use sqlite_items::Items;

impl Names {
    /// The bytes in place of a word.
    pub(crate) fn bytes_at(&self, word: &Word) -> View<'_>
        ensures { tree_of result ≡ bytes_at (names_of self.now) word.now }
    {
        for written in &self.written {
            if written.word.same(word) {
                return written.bytes.whole();
            }
        }
        self.me.whole()
    }

    /// The bytes in place of a name.
    pub(crate) fn bytes_for(&self, name: &Nm) -> View<'_>
        ensures { tree_of result ≡ bytes_for (names_of self.now) (nm_of name.now) }
    {
        match name {
            Nm::Named(id) => self.bytes_at(&id.word),
            Nm::Me { .. } => self.me.whole(),
        }
    }

    /// The principal that a name stands for, if its bytes are a name.
    pub(crate) fn principal_for(&self, name: &Nm) -> Option<&Word>
        ensures { option_copied result ≡ principal_for (names_of self.now) (nm_of name.now) }
    {
        principal_in(self.bytes_for(name))
    }

    /// The bytes in place of names.
    pub(crate) fn bytes_for_all(&self, names: &[Nm]) -> Result<Vec<View<'_>>, Memory>
        ensures { IfOk result (λ made.
            map tree_of made.items ≡ map (bytes_for (names_of self.now)) (map nm_of names.now)) }
    {
        let mut made = Vec::new(self.alloc);
        for name in names {
            made.push(self.bytes_for(name))?;
        }
        Ok(made)
    }

    /// The principals that names stand for, without those whose bytes are no name.
    pub(crate) fn principals_for(&self, names: &[Nm]) -> Result<Items<Word>, Memory>
        ensures { IfOk result (λ made.
            made ≡ filter_map (principal_for (names_of self.now)) (map nm_of names.now)) }
    {
        let mut made = Items::new(self.alloc);
        for name in names {
            if let Some(principal) = self.principal_for(name) {
                made.push(principal.copy())?;
            }
        }
        Ok(made)
    }
}

/// The principal whose name the bytes are.
pub(crate) fn principal_in<'a>(bytes: View<'a>) -> Option<&'a Word>
    ensures { option_copied result ≡ principal_in (tree_of bytes.entry) }
{
    match take_apart(bytes) {
        Parts::Name(principal) => Some(principal),
        _ => None,
    }
}
