ghost use Rattle.std.specs.Prelude.{◌≡◌, ◌<◌, ◌≤◌, ℕ, List, [], ◌∷◌, ◌++◌, length, Contains, IfOk, OnOk, OnErr};
ghost use Rattle.std.specs.List.{All};
ghost use Rattle.dy_term.specs.Terms.{Term, size};
ghost use Rattle.dy_term.specs.declared.limits.TheConstants.{MAX_NODES};
ghost use Rattle.dy_label.specs.LabelsMeaning.{place_of_corruption};
ghost use Rattle.dy_derive.specs.MirrorGivenRules.{outright, field_rule, field_rules, node_of_place};

use crate::deductions::Deductions;
use crate::keys::NameKey;
use crate::nodes::Node;
use crate::reasons::Reason;
use dy_chains::{Premises, Rule};
use dy_entry::Entry;
use dy_flat::FlatTerm;
use dy_label::Corruption;
use dy_term::{Memory, Word};
use std::alloc::Global;

/// The rules that an entry gives, and their reasons. They are not added yet.
#[derive(Drop)]
pub(crate) struct Given {
    pub(crate) rules: Vec<Rule>,
    pub(crate) reasons: Vec<Reason>,
    ghost each: { length reasons.items ≡ length rules.items },
}

fn nothing(alloc: Global) -> Given
    ensures rules { result.rules.items ≡ [] }
    ensures reasons { result.reasons.items ≡ [] }
{
    Given {
        rules: Vec::new(alloc),
        reasons: Vec::new(alloc),
    }
}

/// A fact that is given outright.
fn outright(alloc: Global, number: u32, reason: Reason) -> Result<Given, Memory>
    ensures rules { IfOk result (λ given. given.rules.items ≡ outright number ∷ []) }
    ensures reasons { IfOk result (λ given. given.reasons.items ≡ reason ∷ []) }
{
    let rule = Rule {
        premises: Premises::None,
        conclusion: number,
    };
    Ok(Given {
        rules: vec![in alloc; rule]?,
        reasons: vec![in alloc; reason]?,
    })
}

/// The node of what a corruption takes.
fn node_of_place(corruption: &Corruption) -> Node
    ensures { result ≡ node_of_place (place_of_corruption corruption.now) }
{
    match corruption {
        Corruption::Principal(p) => Node::Principal(NameKey::new(p)),
        Corruption::Session(p, s) => Node::Session(NameKey::new(p), *s),
        Corruption::Version(p, s, v) => Node::Version(NameKey::new(p), *s, *v),
    }
}

/// Adds a rule of a field, which is given with a place.
fn push_rule(given: &mut Given, place: u32, field: u32, reason: Reason) -> Result<(), Memory>
    ensures rules { OnOk result (given.new.rules.items ≡ given.old.rules.items ++ field_rule place field ∷ []) }
    ensures reasons { OnOk result (given.new.reasons.items ≡ given.old.reasons.items ++ reason ∷ []) }
{
    given.rules.reserve(1)?;
    given.reasons.reserve(1)?;
    given.rules.push_reserved(Rule {
        premises: Premises::One(place),
        conclusion: field,
    });
    given.reasons.push_reserved(reason);
    Ok(())
}

/// Adds the rules of a field, which is given with each of three places.
fn push_field(given: &mut Given, places: [u32; 3], field: u32, reason: Reason) -> Result<(), Memory>
    ensures rules { OnOk result (given.new.rules.items ≡ given.old.rules.items ++ field_rules places field) }
    ensures reasons { OnOk result (given.new.reasons.items ≡ given.old.reasons.items ++ reason ∷ reason ∷ reason ∷ []) }
{
    let [principal, session, version] = places;
    push_rule(given, principal, field, reason)?;
    push_rule(given, session, field, reason)?;
    push_rule(given, version, field, reason)
}

impl Deductions {
    ghost use Rattle.dy_chains.specs.Rules.{IsBelow};
    ghost use Rattle.dy_entry.specs.Meaning.{entry_of};
    ghost use Rattle.dy_derive.specs.declared.deductions.Deductions as declared;
    ghost use Rattle.dy_derive.specs.Facts.{Fact, Derived, given, inferences_of_fields, inferences_of_entry};
    ghost use Rattle.dy_derive.specs.Nodes.{fact_of, numbers_of, IsSmall};
    ghost use Rattle.dy_derive.specs.MirrorGivenRules.{places_of};
    ghost use Rattle.dy_derive.specs.MirrorKnowledge.{Grows, AreAny, AreAt};
    ghost use Rattle.dy_derive.specs.MirrorGiven.{Gives};
    ghost use Rattle.dy_derive.specs.KnowledgeMeaning.{GivesSmallValues};

    /// What an entry gives by a value of its own.
    fn given_value(
        &mut self,
        alloc: Global,
        value: &FlatTerm,
        reason: Reason,
    ) -> Result<Given, Memory>
        requires { size value.now ≤ MAX_NODES }
        ensures ok { IfOk result (λ made. Grows self.old self.new (Gives made (given (Derived value.now) reason ∷ []))) }
        ensures below { IfOk result (λ made. All (IsBelow (length self.new.nodes.keys)) made.rules.items) }
        ensures err { OnErr result (Grows self.old self.new AreAny) }
    {
        let number = self.intern_term(alloc, value.whole())?;
        outright(alloc, number, reason)
    }

    /// What an entry gives by a node that has no parts.
    fn given_node(&mut self, alloc: Global, node: Node, reason: Reason) -> Result<Given, Memory>
        requires bare { numbers_of node ≡ [] }
        requires small { IsSmall (fact_of [] node) }
        ensures ok { IfOk result (λ made. Grows self.old self.new (Gives made (given (fact_of [] node) reason ∷ []))) }
        ensures below { IfOk result (λ made. All (IsBelow (length self.new.nodes.keys)) made.rules.items) }
        ensures err { OnErr result (Grows self.old self.new AreAny) }
    {
        let number = self.intern(node)?;
        outright(alloc, number, reason)
    }

    /// The numbers of a principal, its session, and a version of that.
    fn intern_places(
        &mut self,
        principal: &Word,
        session: u32,
        version: u32,
    ) -> Result<[u32; 3], Memory>
        ensures ok { IfOk result (λ places.
            Grows self.old self.new (AreAt places (places_of principal.now session version))) }
        ensures below { IfOk result (λ places. All (λ place. place < length self.new.nodes.keys) places) }
        ensures err { OnErr result (Grows self.old self.new AreAny) }
    {
        let of_principal = self.intern(Node::Principal(NameKey::new(principal)))?;
        let of_session = self.intern(Node::Session(NameKey::new(principal), session))?;
        let of_version = self.intern(Node::Version(NameKey::new(principal), session, version))?;
        Ok([of_principal, of_session, of_version])
    }

    /// What the fields of a state give with the places where they are kept.
    fn given_fields(
        &mut self,
        alloc: Global,
        index: u32,
        places: [u32; 3],
        fields: &[FlatTerm],
    ) -> Result<Given, Memory>
        requires small { (field : Term) → Contains fields.now field → size field ≤ MAX_NODES }
        requires below { All (λ place. place < length self.old.nodes.keys) places }
        ensures ok { IfOk result (λ made. (start : declared.Deductions) (p : List ℕ) (s v : ℕ) →
            Grows start self.old (AreAt places (places_of p s v)) →
            Grows start self.new (Gives made (inferences_of_fields index p s v 1 fields.now))) }
        ensures below { IfOk result (λ made. All (IsBelow (length self.new.nodes.keys)) made.rules.items) }
        ensures err { OnErr result (Grows self.old self.new AreAny) }
    {
        let mut given = nothing(alloc);
        let mut number = 1u32;
        for field in fields {
            let part = self.intern_term(alloc, field.whole())?;
            push_field(&mut given, places, part, Reason::Field(index, number))?;
            number = number.checked_add(1).ok_or(Memory)?;
        }
        Ok(given)
    }

    /// The rules that the entry of this index gives. What they speak of is added, and they are not. It refuses out of
    /// memory alone.
    pub(crate) fn given_by(
        &mut self,
        alloc: Global,
        index: u32,
        entry: &Entry,
    ) -> Result<Given, Memory>
        requires { GivesSmallValues (entry_of entry.now) }
        ensures ok { IfOk result (λ made.
            Grows self.old self.new (Gives made (inferences_of_entry index (entry_of entry.now)))) }
        ensures below { IfOk result (λ made. All (IsBelow (length self.new.nodes.keys)) made.rules.items) }
        ensures err { OnErr result (Grows self.old self.new AreAny) }
    {
        match entry {
            Entry::Message(_, value) | Entry::Inject(_, value) => {
                self.given_value(alloc, value, Reason::Message(index))
            }
            Entry::Cert(_, _, _, key) => self.given_value(alloc, key, Reason::Cert(index)),
            Entry::Forge(_) => self.given_node(alloc, Node::Nonce(index), Reason::Forge(index)),
            Entry::Corrupt(_, corruption) => {
                self.given_node(alloc, node_of_place(corruption), Reason::Corrupt(index))
            }
            Entry::State(_, principal, session, version, _, fields) => {
                let places = self.intern_places(principal, *session, *version)?;
                self.given_fields(alloc, index, places, fields.as_slice())
            }
            Entry::Setup(_)
            | Entry::Start(_, _, _, _, _, _)
            | Entry::Fresh(_, _, _)
            | Entry::Event(_, _, _, _)
            | Entry::End(_, _)
            | Entry::Skip(_) => Ok(nothing(alloc)),
        }
    }
}
