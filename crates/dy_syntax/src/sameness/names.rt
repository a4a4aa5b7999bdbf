ghost use Rattle.std.specs.Prelude.{◌≡◌, ◌≢◌, true, false};
ghost use Rattle.dy_syntax.specs.Names as n;
ghost use Rattle.dy_syntax.specs.Meaning.{id_of, quote_of, nm_of, use_of, atom_of};
ghost use Rattle.dy_syntax.specs.SameFiles as same;

use crate::names::{AtomText, Id, Nm, Quote, UseText};
use crate::sameness::{Part, same_parts};

impl Part for Id {
    ghost Plain = { n.Id };

    ghost plain = { id_of };

    ghost bare = { same.bare_id };

    fn same(&self, other: &Id) -> bool {
        self.word.same(&other.word)
    }
}

impl Part for Quote {
    ghost Plain = { n.Quote };

    ghost plain = { quote_of };

    ghost bare = { same.bare_quote };

    fn same(&self, other: &Quote) -> bool {
        self.text.same(&other.text)
    }
}

impl Part for Nm {
    ghost Plain = { n.Nm };

    ghost plain = { nm_of };

    ghost bare = { same.bare_nm };

    fn same(&self, other: &Nm) -> bool {
        match (self, other) {
            (Nm::Named(id), Nm::Named(other)) => id.same(other),
            (Nm::Me { .. }, Nm::Me { .. }) => true,
            _ => false,
        }
    }
}

impl Part for UseText {
    ghost Plain = { n.UseText };

    ghost plain = { use_of };

    ghost bare = { same.bare_use };

    fn same(&self, other: &UseText) -> bool {
        self.usage.same(&other.usage) && same_parts(self.args.as_slice(), other.args.as_slice())
    }
}

impl Part for AtomText {
    ghost Plain = { n.AtomText };

    ghost plain = { atom_of };

    ghost bare = { same.bare_atom };

    fn same(&self, other: &AtomText) -> bool {
        self.event.same(&other.event) && same_parts(self.args.as_slice(), other.args.as_slice())
    }
}
