ghost use Rattle.std.specs.Prelude.{◌≡◌, ◌<◌, ◌≤◌, ◌^◌, ℕ, List, Some, length, drop, slice_get, true, false};
ghost use Rattle.std.specs.Prelude.{IfOk, IfErr, IfSome, IfNone};
ghost use Rattle.std.specs.List.{list_any};
ghost use Rattle.std.specs.Str.{bytes_eq};
ghost use Rattle.dy_flat.specs.Differing.{all_differ};
ghost use Rattle.dy_flat.specs.Extending.{Extends};
ghost use Rattle.dy_flat.specs.MirrorIndexes.{class_of, Indexes};

use crate::indexing::{CLASSES, Index, class};
use dy_term::{Memory, Text, Word};
use std::alloc::Global;

/// A text or a name. Two of the same bytes are one.
pub(crate) trait Content: Drop {
    ghost bytes: { Self → List ℕ };

    /// The same again.
    fn again(&self) -> Self
        ensures { result ≡ self.now };

    fn is_same(&self, other: &Self) -> bool
        ensures { result ≡ bytes_eq (bytes self.now) (bytes other.now) };

    /// The class by which it is looked up.
    fn class(&self) -> usize
        ensures class { result ≡ class_of (bytes self.now) }
        ensures few { result < CLASSES };

    ghost told_by_bytes: { (a b : Self) → bytes a ≡ bytes b → a ≡ b };
}

impl Content for Text {
    ghost bytes = { λ text. text };

    ghost told_by_bytes = { λ a b same. same };

    fn again(&self) -> Text {
        self.copy()
    }

    fn is_same(&self, other: &Text) -> bool {
        self.same(other)
    }

    fn class(&self) -> usize {
        class(self.as_bytes())
    }
}

impl Content for Word {
    ghost bytes = { λ name. name };

    ghost told_by_bytes = { λ a b same. same };

    fn again(&self) -> Word {
        self.copy()
    }

    fn is_same(&self, other: &Word) -> bool {
        self.same(other)
    }

    fn class(&self) -> usize {
        class(self.as_bytes())
    }
}

/// A number of 32 bits. Where it takes more, the answer is out of memory.
pub(crate) fn as_number(count: usize) -> Result<u32, Memory>
    ensures number { IfOk result (λ number. number ≡ count) }
    ensures more { IfErr result (λ _. 2 ^ 32 ≤ count) }
{
    match u32::try_from(count) {
        Ok(number) => Ok(number),
        Err(_) => Err(Memory),
    }
}

fn place_of<C: Content>(kept: &[C], wanted: &C) -> Option<usize>
    ensures found { IfSome result (λ place. slice_get kept.now place ≡ Some wanted.now) }
    ensures new { IfNone result (
        list_any (λ other. bytes_eq (C.bytes other) (C.bytes wanted.now)) kept.now ≡ false) }
{
    for (place, other) in kept.iter().enumerate() {
        if other.is_same(wanted) {
            return Some(place);
        }
    }
    None
}

/// Adds one that does not stand there yet, and answers its place.
fn add<C: Content>(kept: &mut Vec<C>, new: &C) -> Result<u32, Memory>
    requires { list_any (λ other. bytes_eq (C.bytes other) (C.bytes new.now)) kept.old.items ≡ false }
    ensures place { IfOk result (λ place. slice_get kept.new.items place ≡ Some new.now) }
    ensures grown { Extends kept.old.items kept.new.items }
    ensures once { all_differ C.bytes kept.old.items ≡ true → all_differ C.bytes kept.new.items ≡ true }
{
    let place = as_number(kept.len())?;
    kept.push(new.again())?;
    Ok(place)
}

/// The same, among those from a place on.
fn place_from<C: Content>(kept: &[C], from: usize, wanted: &C) -> Option<usize>
    requires { from ≤ length kept.now }
    ensures found { IfSome result (λ place. slice_get kept.now place ≡ Some wanted.now) }
    ensures new { IfNone result (
        list_any (λ other. bytes_eq (C.bytes other) (C.bytes wanted.now)) (drop from kept.now) ≡ false) }
{
    match place_of(&kept[from..], wanted) {
        Some(place) => Some(from + place),
        None => None,
    }
}

/// The same among all, of which the first are taken in.
fn place_by<C: Content>(kept: &[C], index: &Index, wanted: &C) -> Option<usize>
    requires { Indexes C.bytes kept.now index.now }
    ensures found { IfSome result (λ place. slice_get kept.now place ≡ Some wanted.now) }
    ensures new { IfNone result (
        list_any (λ other. bytes_eq (C.bytes other) (C.bytes wanted.now)) kept.now ≡ false) }
{
    match index.find(kept, wanted) {
        Some(place) => Some(place),
        None => place_from(kept, index.len(), wanted),
    }
}

/// The place of a text or name, which is added where it does not stand yet.
pub(crate) fn place<C: Content>(
    kept: &mut Vec<C>,
    index: &mut Index,
    wanted: &C,
) -> Result<u32, Memory>
    requires { Indexes C.bytes kept.old.items index.old }
    ensures place { IfOk result (λ place. slice_get kept.new.items place ≡ Some wanted.now) }
    ensures grown { Extends kept.old.items kept.new.items }
    ensures once { all_differ C.bytes kept.old.items ≡ true → all_differ C.bytes kept.new.items ≡ true }
    ensures covers { Indexes C.bytes kept.new.items index.new }
{
    index.catch_up(kept)?;
    match place_by(kept, index, wanted) {
        Some(place) => as_number(place),
        None => add(kept, wanted),
    }
}

/// The same texts or names, in memory of their own.
pub(crate) fn copies<C: Content>(alloc: Global, kept: &[C]) -> Result<Vec<C>, Memory>
    ensures { IfOk result (λ made. made.items ≡ kept.now) }
{
    let mut made = Vec::with_capacity(alloc, kept.len())?;
    for one in kept {
        made.push(one.again())?;
    }
    Ok(made)
}
