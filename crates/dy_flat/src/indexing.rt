ghost use Rattle.std.specs.Prelude.{◌≡◌, ◌<◌, ◌+◌, Some, [], length, take, slice_get, slice_index};
ghost use Rattle.std.specs.Prelude.{false, IfOk, IfSome, IfNone};
ghost use Rattle.std.specs.List.{list_any};
ghost use Rattle.std.specs.Str.{bytes_eq};
ghost use Rattle.dy_flat.specs.MirrorIndexes.{class_of, Indexes};

use crate::places::Content;
use dy_term::Memory;
use std::alloc::Global;

/// How many classes there are.
pub(crate) const CLASSES: usize = 128;

/// How many texts or names are looked through before they are taken in.
const FEW: usize = 8;

/// The class of bytes.
pub(crate) fn class(bytes: &[u8]) -> usize
    ensures class { result ≡ class_of bytes.now }
    ensures few { result < CLASSES }
{
    let mut class = 0usize;
    for byte in bytes {
        class = (class * 31 + *byte as usize) % CLASSES;
    }
    class
}

/// Where texts or names stand, by classes of their bytes. Each number is one past a place, or 0.
#[derive(Debug, Drop)]
pub(crate) struct Index {
    /// Of each class the last one that was taken in.
    pub(crate) lasts: Vec<usize>,
    /// Of each one that was taken in the one of its class before it.
    pub(crate) links: Vec<usize>,
}

impl Index {
    pub(crate) fn new(alloc: Global) -> Index
        ensures lasts { result.lasts.items ≡ [] }
        ensures links { result.links.items ≡ [] }
    {
        Index {
            lasts: Vec::new(alloc),
            links: Vec::new(alloc),
        }
    }

    /// How many were taken in.
    pub(crate) fn len(&self) -> usize
        ensures { result ≡ length self.now.links.items }
    {
        self.links.len()
    }

    /// The place of a text or name among those that were taken in.
    pub(crate) fn find<C: Content>(&self, kept: &[C], wanted: &C) -> Option<usize>
        requires { Indexes C.bytes kept.now self.now }
        ensures found { IfSome result (λ place. slice_get kept.now place ≡ Some wanted.now) }
        ensures new { IfNone result (list_any (λ other. bytes_eq (C.bytes other) (C.bytes wanted.now))
            (take (length self.now.links.items) kept.now) ≡ false) }
    {
        let mut at = self.last(wanted.class());
        while at > 0 {
            let place = at - 1;
            if kept[place].is_same(wanted) {
                return Some(place);
            }
            at = self.links[place];
        }
        None
    }

    /// The last one of a class.
    fn last(&self, class: usize) -> usize
        ensures { result ≡ slice_index self.now.lasts.items class }
    {
        match self.lasts.get(class) {
            Some(last) => *last,
            None => 0,
        }
    }

    /// Takes in what was kept since, unless it is little.
    pub(crate) fn catch_up<C: Content>(&mut self, kept: &[C]) -> Result<(), Memory>
        requires { Indexes C.bytes kept.now self.old }
        ensures { Indexes C.bytes kept.now self.new }
    {
        if kept.len() < self.links.len() + FEW {
            return Ok(());
        }
        if self.lasts.len() != CLASSES {
            self.links.clear();
            self.lasts.clear();
            self.lasts.resize(CLASSES, 0)?;
        }
        while self.links.len() < kept.len() {
            self.take_in(kept)?;
        }
        Ok(())
    }

    /// Takes in the next one.
    fn take_in<C: Content>(&mut self, kept: &[C]) -> Result<(), Memory>
        requires covers { Indexes C.bytes kept.now self.old }
        requires classes { length self.old.lasts.items ≡ CLASSES }
        requires more { length self.old.links.items < length kept.now }
        ensures covers { Indexes C.bytes kept.now self.new }
        ensures classes { length self.new.lasts.items ≡ CLASSES }
        ensures one { IfOk result (λ _. length self.new.links.items ≡ length self.old.links.items + 1) }
    {
        let place = self.links.len();
        let class = kept[place].class();
        self.links.push(self.lasts[class])?;
        self.lasts[class] = place + 1;
        Ok(())
    }
}
