ghost use Rattle.std.specs.Prelude.{◌≡◌, map};
ghost use Rattle.dy_syntax.specs.Names as names;
ghost use Rattle.dy_syntax.specs.Meaning.{id_of, nm_of, kind_of, use_of, atom_of, file_of};
ghost use Rattle.dy_syntax.specs.MirrorMeaning.{least_of, scope_of};
ghost use Rattle.dy_syntax.specs.MirrorFaults.{note_part, note_parts};
ghost use Rattle.dy_syntax.specs.Parts as parts;

use crate::files::File;
use crate::least::Least;
use crate::look_ups::{event_named, usage_named};
use crate::names::{AtomText, Id, KindText, Nm, UseText};
use crate::rules::declared::{note_unbound, note_unbound_name};
use crate::rules::kinds::{has_certificates, note_kind};
use crate::rules::lengths::note_lengths;
use crate::rules::names::{note_args, note_no_name};
use crate::scopes::{Scope, is_among};

/// Something stands where only a name may stand.
#[tactic(auto, unfolding(crate::specs::MirrorFaults::note_part))]
pub(crate) fn note_name_only(file: &File, scope: &Scope, name: &Nm, least: &mut Least)
    ensures { least_of least.new ≡ note_part (file_of file.now) (scope_of scope.now) (parts.NameOnly (nm_of name.now))
        (least_of least.old) }
{
    let _ = file;
    note_unbound_name(scope, name, least);
    note_no_name(scope, name, least);
}

#[tactic(auto, unfolding(crate::specs::MirrorFaults::note_part))]
fn note_used(file: &File, scope: &Scope, usage: &UseText, least: &mut Least)
    ensures { least_of least.new ≡ note_part (file_of file.now) (scope_of scope.now) (parts.Used (use_of usage.now))
        (least_of least.old) }
{
    let _ = scope;
    match usage_named(file.decls.as_slice(), &usage.usage.word) {
        None => least.note(2, usage.usage.line),
        Some(declared) => note_lengths(
            declared.params.as_slice(),
            usage.args.as_slice(),
            usage.usage.line,
            least,
        ),
    }
}

fn note_names(file: &File, scope: &Scope, names: &[Nm], least: &mut Least)
    ensures { least_of least.new ≡ note_parts (file_of file.now) (scope_of scope.now)
        (map parts.NameOnly (map nm_of names.now)) (least_of least.old) }
{
    for name in names {
        note_name_only(file, scope, name, least);
    }
}

/// A usage with its arguments.
#[tactic(auto, unfolding(crate::specs::Parts::parts_of_use))]
pub(crate) fn note_use(file: &File, scope: &Scope, usage: &UseText, least: &mut Least)
    ensures { least_of least.new ≡ note_parts (file_of file.now) (scope_of scope.now)
        (parts.parts_of_use (use_of usage.now)) (least_of least.old) }
{
    note_used(file, scope, usage, least);
    note_names(file, scope, usage.args.as_slice(), least);
}

#[tactic(auto, unfolding(crate::specs::MirrorFaults::note_part))]
fn note_of_kind(file: &File, scope: &Scope, kind: KindText, usage: &Id, least: &mut Least)
    ensures { least_of least.new ≡ note_part (file_of file.now) (scope_of scope.now)
        (parts.OfKind (kind_of kind) (id_of usage.now)) (least_of least.old) }
{
    let _ = scope;
    note_kind(file.decls.as_slice(), kind, usage, least);
}

/// A key's usage, whose kind is said.
#[tactic(auto, unfolding(crate::specs::Parts::parts_of_key))]
pub(crate) fn note_key(
    file: &File,
    scope: &Scope,
    kind: KindText,
    usage: &UseText,
    least: &mut Least,
)
    ensures { least_of least.new ≡ note_parts (file_of file.now) (scope_of scope.now)
        (parts.parts_of_key (kind_of kind) (use_of usage.now)) (least_of least.old) }
{
    note_of_kind(file, scope, kind, &usage.usage, least);
    note_use(file, scope, usage, least);
}

/// A usage of which certificates are.
#[tactic(auto, unfolding(crate::specs::MirrorFaults::note_part))]
pub(crate) fn note_certified(file: &File, scope: &Scope, usage: &Id, least: &mut Least)
    ensures { least_of least.new ≡ note_part (file_of file.now) (scope_of scope.now)
        (parts.Certified (id_of usage.now)) (least_of least.old) }
{
    let _ = scope;
    match usage_named(file.decls.as_slice(), &usage.word) {
        None => least.note(2, usage.line),
        Some(declared) => least.note_if(!has_certificates(declared), 4, usage.line),
    }
}

/// A variable is used.
#[tactic(auto, unfolding(crate::specs::MirrorFaults::note_part))]
pub(crate) fn note_variable(file: &File, scope: &Scope, name: &Nm, least: &mut Least)
    ensures { least_of least.new ≡ note_part (file_of file.now) (scope_of scope.now) (parts.Variable (nm_of name.now))
        (least_of least.old) }
{
    let _ = file;
    note_unbound(scope, name, least);
}

/// The variable of this name is used.
#[tactic(auto, unfolding(crate::specs::MirrorFaults::note_part))]
pub(crate) fn note_named(file: &File, scope: &Scope, id: &Id, least: &mut Least)
    ensures { least_of least.new ≡ note_part (file_of file.now) (scope_of scope.now)
        (parts.Variable (names.Named (id_of id.now))) (least_of least.old) }
{
    let _ = file;
    least.note_if(!is_among(&id.word, scope.bound.as_slice()), 2, id.line);
}

pub(crate) fn note_variables(file: &File, scope: &Scope, names: &[Nm], least: &mut Least)
    ensures { least_of least.new ≡ note_parts (file_of file.now) (scope_of scope.now)
        (map parts.Variable (map nm_of names.now)) (least_of least.old) }
{
    for name in names {
        note_variable(file, scope, name, least);
    }
}

#[tactic(auto, unfolding(crate::specs::MirrorFaults::note_part))]
fn note_event(file: &File, scope: &Scope, atom: &AtomText, least: &mut Least)
    ensures { least_of least.new ≡ note_part (file_of file.now) (scope_of scope.now) (parts.Atom (atom_of atom.now))
        (least_of least.old) }
{
    match event_named(file.decls.as_slice(), &atom.event.word) {
        None => least.note(2, atom.event.line),
        Some(declared) => {
            let params = declared.params.as_slice();
            let args = atom.args.as_slice();
            note_lengths(params, args, atom.event.line, least);
            note_args(scope, params, args, least);
        }
    }
}

/// An event with its arguments.
#[tactic(auto, unfolding(crate::specs::Parts::parts_of_atom))]
pub(crate) fn note_atom(file: &File, scope: &Scope, atom: &AtomText, least: &mut Least)
    ensures { least_of least.new ≡ note_parts (file_of file.now) (scope_of scope.now)
        (parts.parts_of_atom (atom_of atom.now)) (least_of least.old) }
{
    note_event(file, scope, atom, least);
    note_variables(file, scope, atom.args.as_slice(), least);
}
