ghost use Rattle.std.specs.Prelude.{◌≡◌, IfOk};
ghost use Rattle.dy_syntax.specs.Meaning.{field_type_of, use_of};
ghost use Rattle.dy_types.specs.Meaning as types;
ghost use Rattle.dy_types.specs.Tables.{TypeHasTable};
ghost use Rattle.dy_typing.specs.Instances as typing;
ghost use Rattle.dy_check.specs.Meaning.{here_of};
ghost use Rattle.dy_check.specs.MirrorNames.{numbers_of};

use crate::labels::{Naming, Version, label_table};
use crate::stands::NmRef;
use dy_syntax::{FieldType, UseText};
use dy_term::Memory;
use dy_types::{Declared, StaticUse};
use sqlite_items::Items;
use std::alloc::Global;

/// A usage as it stands in a handler: its arguments are those that are names, by number. It refuses
/// out of memory alone.
pub(crate) fn use_in(
    alloc: Global,
    naming: &Naming<'_, '_, '_>,
    usage: &UseText,
) -> Result<StaticUse, Memory>
    ensures { IfOk result (λ u. types.use_of u ≡ typing.use_in (numbers_of naming.now) (use_of usage.now)) }
{
    let mut args = Items::new(alloc);
    for arg in usage.args.as_slice() {
        if let Some(number) = naming.number(NmRef::of(arg)) {
            args.push(number)?;
        }
    }
    Ok(StaticUse {
        usage: usage.usage.word.copy(),
        args,
    })
}

/// A field's type as it stands in a handler, where `here` means this version. It refuses out of
/// memory alone.
pub(crate) fn type_in(
    alloc: Global,
    naming: &Naming<'_, '_, '_>,
    here: Option<Version>,
    kind: &FieldType,
) -> Result<Declared, Memory>
    ensures { IfOk result (λ declared.
        TypeHasTable (typing.type_in (numbers_of naming.now) (here_of here) (field_type_of kind.now))
        (types.type_of declared)) }
{
    Ok(match kind {
        FieldType::Name => Declared::Name,
        FieldType::Any => Declared::Any,
        FieldType::Upto(label) => Declared::Upto(label_table(naming, here, label)),
        FieldType::Secret(label) => Declared::Secret(label_table(naming, here, label)),
        FieldType::Key(label, usage) => Declared::Key(
            label_table(naming, here, label),
            use_in(alloc, naming, usage)?,
        ),
        FieldType::Pk(label, usage) => Declared::Pk(
            label_table(naming, here, label),
            use_in(alloc, naming, usage)?,
        ),
        FieldType::Vk(label, usage) => Declared::Vk(
            label_table(naming, here, label),
            use_in(alloc, naming, usage)?,
        ),
    })
}
