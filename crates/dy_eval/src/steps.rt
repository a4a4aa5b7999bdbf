ghost use Rattle.std.specs.Prelude.{◌≡◌, ◌+◌, ◌<◌, ◌^◌, length, drop, map, IfOk, OnOk, OnErr};
ghost use Rattle.dy_eval.specs.Past.{HasEachVersionOnce, HasRoomForNext};
ghost use Rattle.dy_eval.specs.Runs.{runs};
ghost use Rattle.dy_eval.specs.Names.{write};
ghost use Rattle.dy_eval.specs.NamesMeaning.{names_of};
ghost use Rattle.dy_eval.specs.LineMeaning.{line_of};
ghost use Rattle.dy_eval.specs.TakenMeaning.{next_of_taken, KeepsWritten};

use crate::effects::Effect;
use crate::items::Item;
use crate::lines::Line;
use crate::names::Names;
use crate::past::Past;
use crate::statements::effect;
use crate::written::Written;
use dy_label::Outcome;
use dy_term::{Memory, Word};

/// What comes of taking lines: an item is put, and the lines before a place are taken; or the instance ends.
#[derive(Debug, Drop)]
pub(crate) enum Taken {
    Puts(Item, Option<Word>, usize),
    Ends(Outcome),
}

/// Writes more bytes in place of words. Out of memory, nothing is written.
pub(crate) fn append_written(names: &mut Names, more: Vec<Written>) -> Result<(), Memory>
    ensures ok { OnOk result (names_of names.new ≡ write (names_of names.old) more.items) }
    ensures err { OnErr result (names_of names.new ≡ names_of names.old) }
{
    let mut more = more;
    names.written.append(&mut more)?;
    Ok(())
}

/// Takes lines in order, from a place on, up to the first one that puts an item or fails. It refuses out of memory
/// alone, and what was written before is kept then too.
pub(crate) fn take_lines<P: Past>(
    names: &mut Names,
    past: &P,
    lines: &[Line],
    first: u32,
    start: usize,
) -> Result<Taken, Memory>
    requires once { HasEachVersionOnce (P.trace past.now) }
    requires room { HasRoomForNext (P.trace past.now) names.old.principal names.old.session }
    requires numbers { first + length lines.now < 2 ^ 32 }
    ensures next { IfOk result (λ taken. next_of_taken names.new first lines.now taken
        ≡ runs (P.trace past.now) (names_of names.old) (first + start) (drop start (map line_of lines.now))) }
    ensures kept { KeepsWritten names.old names.new }
{
    for at in start..lines.len() {
        match effect(names, past, &lines[at])? {
            Effect::Puts(item, binds) => return Ok(Taken::Puts(item, binds, at + 1)),
            Effect::Writes(more) => append_written(names, more)?,
            Effect::Fails => return Ok(Taken::Ends(Outcome::Stopped(first + at as u32))),
        }
    }
    Ok(Taken::Ends(Outcome::Done))
}
