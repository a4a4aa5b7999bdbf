ghost use Rattle.std.specs.Prelude.{◌≡◌, ◌<◌, true, IfSome};
ghost use Rattle.dy_label.specs.Labels.{One, one_or_nobody};
ghost use Rattle.dy_label.specs.Words.{is_below};
ghost use Rattle.dy_label.specs.WordsMeaning.{atom_of};
ghost use Rattle.dy_label.specs.declared.words.TheConstants.{NAMES};
ghost use Rattle.dy_syntax.specs.Meaning.{label_of};
ghost use Rattle.dy_types.specs.Tables.{HasTable};
ghost use Rattle.dy_typing.specs.Instances.{name_label, label_in};
ghost use Rattle.dy_check.specs.Meaning.{here_of, nm_ref_of};
ghost use Rattle.dy_check.specs.MirrorNames.{numbers_of};

use crate::settings::Setting;
use crate::stands::{NmRef, Standing, stands_for};
use dy_label::{Atom, NAMES, Scope, StaticLabel, Table, join, meet, table_of};
use dy_syntax::LabelText;
use dy_types::{nobody_table, public_table};

/// The version that `here` means.
#[derive(Clone, Copy)]
pub(crate) enum Version {
    Prior,
    Next,
}

/// How names are numbered: those of the handler itself, or those that stand for words of a
/// declaration.
#[derive(Clone, Copy)]
pub(crate) enum Naming<'n, 's, 'a> {
    Handler(&'n Setting<'s, 'a>),
    Declaration(&'n Setting<'s, 'a>, &'n [Standing<'n>]),
}

impl<'n, 's, 'a> Naming<'n, 's, 'a> {
    /// The number of the handler's name that is meant, or `None` where none is.
    pub(crate) fn number(&self, name: NmRef<'_>) -> Option<u8>
        ensures number { result ≡ numbers_of self.now (nm_ref_of name.entry) }
        ensures within { IfSome result (λ number. number < NAMES) }
    {
        match self {
            Naming::Handler(setting) => setting.name_number(name),
            Naming::Declaration(setting, stands) => {
                let name = stands_for(stands, name)?;
                setting.name_number(name)
            }
        }
    }
}

/// The table of the label that is open where this word is.
fn word_table(atom: Atom) -> Table
    requires { is_below NAMES (atom_of atom) ≡ true }
    ensures { HasTable (One (atom_of atom)) result }
{
    match Scope::new(NAMES) {
        Some(scope) => table_of(&StaticLabel::One(atom), &scope),
        None => unreachable!(),
    }
}

/// The table of the label of the name of this number, or of `nobody` where there is none.
pub(crate) fn name_table(number: Option<u8>) -> Table
    requires { IfSome number (λ n. n < NAMES) }
    ensures { HasTable (name_label number) result }
{
    match number {
        Some(number) => word_table(Atom::Name(number)),
        None => nobody_table(),
    }
}

/// The table of the label of this version, or of `nobody` where there is none.
pub(crate) fn here_table(here: Option<Version>) -> Table
    ensures { HasTable (one_or_nobody (here_of here)) result }
{
    match here {
        Some(Version::Prior) => word_table(Atom::Prior),
        Some(Version::Next) => word_table(Atom::Next),
        None => nobody_table(),
    }
}

/// The table of a label over the handler's words, where `here` means this version.
pub(crate) fn label_table(
    naming: &Naming<'_, '_, '_>,
    here: Option<Version>,
    label: &LabelText,
) -> Table
    ensures { HasTable (label_in (numbers_of naming.now) (here_of here) (label_of label.now)) result }
{
    match label {
        LabelText::Public(_) => public_table(),
        LabelText::Nobody(_) => nobody_table(),
        LabelText::Session(_) => word_table(Atom::Session),
        LabelText::Next(_) => word_table(Atom::Next),
        LabelText::Prior(_) => word_table(Atom::Prior),
        LabelText::Here(_) => here_table(here),
        LabelText::One(name) => name_table(naming.number(NmRef::of(name))),
        LabelText::Join(_, left, right) => join(
            &label_table(naming, here, left),
            &label_table(naming, here, right),
        ),
        LabelText::Meet(_, left, right) => meet(
            &label_table(naming, here, left),
            &label_table(naming, here, right),
        ),
    }
}
