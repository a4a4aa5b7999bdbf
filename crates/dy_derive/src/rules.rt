ghost use Rattle.std.specs.Prelude.{◌≡◌, ◌≤◌, [], ◌∷◌, take};
ghost use Rattle.dy_derive.specs.MirrorRules as mirror;
ghost use Rattle.dy_derive.specs.MirrorRules.{reasoned, rules_in, reasons_in};

use crate::nodes::Node;
use crate::reasons::Reason;
use dy_chains::{Premises, Rule};

/// A rule and its reason.
type Reasoned = (Rule, Reason);

/// At most three rules, and their reasons.
#[derive(Clone, Copy)]
pub(crate) struct FewRules {
    pub(crate) rules: [Rule; 3],
    pub(crate) reasons: [Reason; 3],
    pub(crate) count: usize,
    ghost few: { count ≤ 3 },
}

/// Three places, of which so many are taken.
fn few(count: usize, first: Reasoned, second: Reasoned, third: Reasoned) -> FewRules
    requires { count ≤ 3 }
    ensures rules { result.rules ≡ rules_in (first ∷ second ∷ third ∷ []) }
    ensures reasons { result.reasons ≡ reasons_in (first ∷ second ∷ third ∷ []) }
    ensures count { result.count ≡ count }
{
    FewRules {
        rules: [first.0, second.0, third.0],
        reasons: [first.1, second.1, third.1],
        count,
    }
}

/// By these premises the fact follows, for this reason.
fn reasoned(premises: Premises, conclusion: u32, reason: Reason) -> Reasoned
    ensures { result ≡ reasoned premises conclusion reason }
{
    let rule = Rule {
        premises,
        conclusion,
    };
    (rule, reason)
}

fn none() -> FewRules
    ensures rules { take result.count result.rules ≡ [] }
    ensures reasons { take result.count result.reasons ≡ [] }
{
    let nothing = reasoned(Premises::None, 0, Reason::Built);
    few(0, nothing, nothing, nothing)
}

fn one(only: Reasoned) -> FewRules
    ensures rules { take result.count result.rules ≡ rules_in (only ∷ []) }
    ensures reasons { take result.count result.reasons ≡ reasons_in (only ∷ []) }
{
    few(1, only, only, only)
}

fn two(first: Reasoned, second: Reasoned) -> FewRules
    ensures rules { take result.count result.rules ≡ rules_in (first ∷ second ∷ []) }
    ensures reasons { take result.count result.reasons ≡ reasons_in (first ∷ second ∷ []) }
{
    few(2, first, second, second)
}

fn three(first: Reasoned, second: Reasoned, third: Reasoned) -> FewRules
    ensures rules { take result.count result.rules ≡ rules_in (first ∷ second ∷ third ∷ []) }
    ensures reasons { take result.count result.reasons ≡ reasons_in (first ∷ second ∷ third ∷ []) }
{
    few(3, first, second, third)
}

/// How public-key encryption is built, and how it is opened where the key is known.
fn encryption_rules(number: u32, opening: Option<u32>, to: u32, message: u32) -> FewRules
    ensures rules { take result.count result.rules
        ≡ rules_in (reasoned (Premises.Two to message) number Reason.Built ∷ mirror.decrypted number message opening) }
    ensures reasons { take result.count result.reasons
        ≡ reasons_in (reasoned (Premises.Two to message) number Reason.Built ∷ mirror.decrypted number message opening) }
{
    let built = reasoned(Premises::Two(to, message), number, Reason::Built);
    match opening {
        None => one(built),
        Some(key) => two(
            built,
            reasoned(Premises::Two(number, key), message, Reason::Decrypted),
        ),
    }
}

/// The rules of a node of this number: how it is built of its parts, and how they are opened. Of public-key encryption
/// the key that opens it is given, if it is known.
pub(crate) fn rules_of(number: u32, opening: Option<u32>, node: &Node) -> FewRules
    ensures rules { take result.count result.rules ≡ rules_in (mirror.rules_of number opening node.now) }
    ensures reasons { take result.count result.reasons ≡ reasons_in (mirror.rules_of number opening node.now) }
{
    match node {
        Node::Lit(_) | Node::Name(_) => one(reasoned(Premises::None, number, Reason::Built)),
        Node::Nonce(_) | Node::Principal(_) | Node::Session(_, _) | Node::Version(_, _, _) =>
            none(),
        Node::Pair(first, second) => three(
            reasoned(Premises::Two(*first, *second), number, Reason::Built),
            reasoned(Premises::One(number), *first, Reason::First),
            reasoned(Premises::One(number), *second, Reason::Second),
        ),
        Node::Pk(part) | Node::Vk(part) | Node::Hash(part) => {
            one(reasoned(Premises::One(*part), number, Reason::Built))
        }
        Node::Penc(to, message) => encryption_rules(number, opening, *to, *message),
        Node::Aead(key, message, associated) => three(
            reasoned(
                Premises::Three(*key, *message, *associated),
                number,
                Reason::Built,
            ),
            reasoned(Premises::Two(number, *key), *message, Reason::Opened),
            reasoned(Premises::One(number), *associated, Reason::Associated),
        ),
        Node::Sign(key, message) => two(
            reasoned(Premises::Two(*key, *message), number, Reason::Built),
            reasoned(Premises::One(number), *message, Reason::Signed),
        ),
        Node::Mac(first, second) | Node::Kdf(first, _, second) => {
            one(reasoned(Premises::Two(*first, *second), number, Reason::Built))
        }
    }
}
