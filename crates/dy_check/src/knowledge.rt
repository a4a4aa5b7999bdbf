ghost use Rattle.std.specs.Prelude.{◌<◌, ◌^◌, length};

use crate::stands::{NmRef, number_in};
use dy_label::Table;
use dy_term::{Memory, Word};
use dy_types::{Claim, Fact, Known, has_fact, identify};
use sqlite_items::Items;
use std::alloc::Global;

/// What a handler knows at a place of its text. It has the variables after `self`, and for each the
/// number of the first that is one with it. It is also what is known of each value, and the events that
/// happened.
#[derive(Drop)]
pub(crate) struct Knowledge {
    pub(crate) words: Items<Word>,
    pub(crate) first: Items<u32>,
    pub(crate) values: Items<Known>,
    pub(crate) facts: Items<Fact>,
    ghost few: { length words < 2 ^ 32 },
}

impl Knowledge {
    ghost use Rattle.std.specs.Prelude.{◌≡◌, ◌↔◌, ℕ, List, map, IsTrue, IfOk, OnOk};
    ghost use Rattle.std.specs.Option.{option_map};
    ghost use Rattle.dy_label.specs.Words.{StaticLabel};
    ghost use Rattle.dy_types.specs.Claims as plain;
    ghost use Rattle.dy_types.specs.Meaning.{claims_of, known_of};
    ghost use Rattle.dy_types.specs.Tables.{HasTable, ClaimsHaveTables, KnownHasTables};
    ghost use Rattle.dy_typing.specs.Names as typed;
    ghost use Rattle.dy_typing.specs.Knowledge as typing;
    ghost use Rattle.dy_check.specs.Meaning.{knowledge_of, nm_ref_of};
    ghost use Rattle.dy_check.specs.Tables.{KnowledgeHasTables};

    /// What is known before anything is bound but `self`. It refuses out of memory alone.
    pub(crate) fn self_alone(alloc: Global) -> Result<Knowledge, Memory>
        ensures { IfOk result (λ known. KnowledgeHasTables typing.self_alone (knowledge_of known)) }
    {
        let mut first = Items::new(alloc);
        first.push(0)?;
        let mut values = Items::new(alloc);
        values.push(Known::plain(alloc))?;
        Ok(Knowledge {
            words: Items::new(alloc),
            first,
            values,
            facts: Items::new(alloc),
        })
    }

    /// The number of a name or a variable, if it is bound.
    fn number_of(&self, name: NmRef<'_>) -> Option<u32>
        ensures { result ≡ typed.number_in (knowledge_of self.now).words (nm_ref_of name.entry) }
    {
        let number = number_in(self.words.as_slice(), name)?;
        Some(number as u32)
    }

    /// The number of the first variable that is one with this name or variable, if that is bound.
    fn value_of(&self, name: NmRef<'_>) -> Option<u32>
        ensures { result ≡ typing.value_of (knowledge_of self.now) (nm_ref_of name.entry) }
    {
        let number = self.number_of(name)?;
        Some(match self.first.get(number as usize) {
            Some(first) => *first,
            None => number,
        })
    }

    /// The numbers of these names and variables, or `None` where one of them is not bound. It refuses
    /// out of memory alone.
    fn numbers_of(&self, alloc: Global, names: &[NmRef<'_>]) -> Result<Option<Items<u32>>, Memory>
        ensures { IfOk result (λ numbers. numbers ≡
            typed.each_or_none (typed.number_in (knowledge_of self.now).words) (map nm_ref_of names.now)) }
    {
        let mut numbers = Items::new(alloc);
        for name in names {
            let Some(number) = self.number_of(*name) else {
                return Ok(None);
            };
            numbers.push(number)?;
        }
        Ok(Some(numbers))
    }

    /// The first variables that are one with these, or `None` where one of them is not bound. It
    /// refuses out of memory alone.
    fn values_of(&self, alloc: Global, names: &[NmRef<'_>]) -> Result<Option<Items<u32>>, Memory>
        ensures { IfOk result (λ values. values ≡
            typing.values_of (knowledge_of self.now) (map nm_ref_of names.now)) }
    {
        let mut values = Items::new(alloc);
        for name in names {
            let Some(value) = self.value_of(*name) else {
                return Ok(None);
            };
            values.push(value)?;
        }
        Ok(Some(values))
    }

    /// What is known of the value of this number, in memory of its own. It refuses out of memory
    /// alone.
    fn known_at(&self, alloc: Global, number: u32) -> Result<Known, Memory>
        ensures { IfOk result (λ known. (k : typing.Knowledge) → KnowledgeHasTables k (knowledge_of self.now) →
            KnownHasTables (typing.known_at k number) (known_of known)) }
    {
        match self.values.get(number as usize) {
            Some(known) => known.copy(alloc),
            None => Ok(Known::unknown(alloc)),
        }
    }

    /// What is known of a name or a variable, in memory of its own. It refuses out of memory alone.
    pub(crate) fn known_of(&self, alloc: Global, name: NmRef<'_>) -> Result<Known, Memory>
        ensures { IfOk result (λ known. (k : typing.Knowledge) → KnowledgeHasTables k (knowledge_of self.now) →
            KnownHasTables (typing.known_of k (nm_ref_of name.entry)) (known_of known)) }
    {
        match self.value_of(name) {
            Some(number) => self.known_at(alloc, number),
            None => Ok(Known::unknown(alloc)),
        }
    }

    /// Binds one more variable, of whose value this is known. It refuses out of memory alone.
    pub(crate) fn bind(&mut self, word: &Word, known: Known) -> Result<(), Memory>
        ensures { OnOk result ((k : typing.Knowledge) (more : plain.Known) →
            KnowledgeHasTables k (knowledge_of self.old) → KnownHasTables more (known_of known) →
            KnowledgeHasTables (typing.bind k word.now more) (knowledge_of self.new)) }
    {
        let Ok(number) = u32::try_from(self.first.len()) else {
            return Err(Memory);
        };
        if self.words.len() >= u32::MAX as usize {
            return Err(Memory);
        }
        self.words.push(word.copy())?;
        self.first.push(number)?;
        self.values.push(known)?;
        Ok(())
    }

    /// Of the value of this number this is known, where it is a value.
    fn set_value(&mut self, number: u32, known: Known)
        ensures { (k : typing.Knowledge) (more : plain.Known) →
            KnowledgeHasTables k (knowledge_of self.old) → KnownHasTables more (known_of known) →
            KnowledgeHasTables (typing.with_value k number more) (knowledge_of self.new) }
    {
        if (number as usize) < self.values.len() {
            self.values.set(number as usize, known);
        }
    }

    /// Of the value of this name this is known besides. It refuses out of memory alone.
    pub(crate) fn identify_value(
        &mut self,
        alloc: Global,
        name: NmRef<'_>,
        known: &Known,
    ) -> Result<(), Memory>
        ensures { OnOk result ((k : typing.Knowledge) (more : plain.Known) →
            KnowledgeHasTables k (knowledge_of self.old) → KnownHasTables more (known_of known.now) →
            KnowledgeHasTables (typing.identify_value k (nm_ref_of name.entry) more) (knowledge_of self.new)) }
    {
        let Some(number) = self.value_of(name) else {
            return Ok(());
        };
        let before = self.known_at(alloc, number)?;
        self.set_value(number, identify(alloc, &before, known)?);
        Ok(())
    }

    /// Of the value of this name these claims are made besides. It refuses out of memory alone.
    pub(crate) fn claim_value(
        &mut self,
        alloc: Global,
        name: NmRef<'_>,
        said: Items<Claim>,
    ) -> Result<(), Memory>
        ensures { OnOk result ((k : typing.Knowledge) (claims : List plain.Claim) →
            KnowledgeHasTables k (knowledge_of self.old) → ClaimsHaveTables claims (claims_of said) →
            KnowledgeHasTables (typing.claim_value k (nm_ref_of name.entry) claims) (knowledge_of self.new)) }
    {
        let Some(number) = self.value_of(name) else {
            return Ok(());
        };
        let mut known = self.known_at(alloc, number)?;
        known.claims.append(said)?;
        self.set_value(number, known);
        Ok(())
    }

    /// Two values are one: the later one is known under the earlier.
    fn unite(&mut self, alloc: Global, value: u32, other: u32) -> Result<(), Memory>
        ensures { OnOk result ((k : typing.Knowledge) → KnowledgeHasTables k (knowledge_of self.old) →
            KnowledgeHasTables (typing.unite k value other) (knowledge_of self.new)) }
    {
        let earlier = value.min(other);
        let later = value.max(other);
        let mut first = Items::new(alloc);
        for number in self.first.as_slice() {
            first.push(if *number == later { earlier } else { *number })?;
        }
        self.first = first;
        Ok(())
    }

    /// Two values are one, and what is known of either is known of both. It refuses out of memory
    /// alone.
    fn same_values(&mut self, alloc: Global, value: u32, other: u32) -> Result<(), Memory>
        ensures { OnOk result ((k : typing.Knowledge) → KnowledgeHasTables k (knowledge_of self.old) →
            KnowledgeHasTables (typing.same_values k value other) (knowledge_of self.new)) }
    {
        if value == other {
            return Ok(());
        }
        let first = self.known_at(alloc, value)?;
        let second = self.known_at(alloc, other)?;
        self.unite(alloc, value, other)?;
        self.set_value(value.min(other), identify(alloc, &first, &second)?);
        Ok(())
    }

    /// Two names or variables have one value. It refuses out of memory alone.
    pub(crate) fn same_names(
        &mut self,
        alloc: Global,
        left: NmRef<'_>,
        right: NmRef<'_>,
    ) -> Result<(), Memory>
        ensures { OnOk result ((k : typing.Knowledge) → KnowledgeHasTables k (knowledge_of self.old) →
            KnowledgeHasTables (typing.same_names k (nm_ref_of left.entry) (nm_ref_of right.entry))
            (knowledge_of self.new)) }
    {
        let Some(value) = self.value_of(left) else {
            return Ok(());
        };
        let Some(other) = self.value_of(right) else {
            return Ok(());
        };
        self.same_values(alloc, value, other)
    }

    /// The event happened with the values of these names and variables, if they are all bound, or
    /// the label of this table is open. It refuses out of memory alone.
    pub(crate) fn add_event(
        &mut self,
        alloc: Global,
        event: &Word,
        names: Option<&[NmRef<'_>]>,
        guard: &Table,
    ) -> Result<(), Memory>
        ensures { OnOk result ((k : typing.Knowledge) (label : StaticLabel) →
            KnowledgeHasTables k (knowledge_of self.old) → HasTable label guard.now →
            KnowledgeHasTables
            (typing.add_event k event.now (option_map (λ given. map nm_ref_of given.now) names.entry) label)
            (knowledge_of self.new)) }
    {
        let Some(names) = names else { return Ok(()) };
        let Some(args) = self.numbers_of(alloc, names)? else {
            return Ok(());
        };
        self.facts.push(Fact {
            event: event.copy(),
            args,
            guard: *guard,
        })?;
        Ok(())
    }

    /// Whether the event is known to have happened with the values of these names and variables, or
    /// else the label of this table is open. It refuses out of memory alone.
    pub(crate) fn has_happened(
        &self,
        alloc: Global,
        event: &Word,
        names: Option<&[NmRef<'_>]>,
        table: &Table,
    ) -> Result<bool, Memory>
        ensures { IfOk result (λ has. (k : typing.Knowledge) (label : StaticLabel) →
            KnowledgeHasTables k (knowledge_of self.now) → HasTable label table.now →
            (IsTrue has ↔
            typing.Happened k event.now (option_map (λ given. map nm_ref_of given.now) names.entry) label)) }
    {
        let Some(names) = names else {
            return Ok(false);
        };
        let Some(values) = self.values_of(alloc, names)? else {
            return Ok(false);
        };
        Ok(has_fact(
            self.facts.as_slice(),
            self.first.as_slice(),
            event,
            values.as_slice(),
            table,
        ))
    }
}
