ghost use Rattle.std.specs.Prelude.{◌≡◌, ℕ, suc, ◌+◌, ◌++◌, [], List, length, take, sum_by, if◌then◌else◌};
ghost use Rattle.dy_entry.specs.Entries as entries;
ghost use Rattle.dy_entry.specs.LookUps as look_ups;
ghost use Rattle.dy_label.specs.LabelsMeaning.{places_of};
ghost use Rattle.dy_know.specs.MirrorAuditors.{KeepsSecrets, AllKnown, AreDerived, ChangesAt};
ghost use Rattle.dy_know.specs.MirrorAuditors.{learn_knowing, learn_secret, breach_count, is_breach};

use crate::secrets::{Knowing, Secret};
use dy_label::{Corruption, is_open};

impl Knowing {
    /// Notes that the nonce is known from this entry on, if it was not known before, where it is said whether its label
    /// is open. It tells whether that is a breach.
    fn learn(&mut self, is_open: bool, from: u32) -> bool
        ensures known { self.new ≡ learn_knowing is_open from self.old }
        ensures breach { is_breach self.new ≡ is_breach self.old + (if result then 1 else 0) }
    {
        if !matches!(self, Knowing::Unknown) {
            return false;
        }
        *self = if is_open {
            Knowing::Open { from }
        } else {
            Knowing::Breach { from, recipe: None }
        };
        !is_open
    }
}

/// Notes that the attacker knows the nonce from this entry on, if it is honest and was not known before, where these are
/// the corruptions. It tells whether that is a breach.
fn learn(secrets: &mut [Option<Secret>], corruptions: &[Corruption], nonce: u32, from: u32) -> bool
    ensures changes { ChangesAt (learn_secret (places_of corruptions.now) from) nonce secrets.old secrets.new }
    ensures count { sum_by breach_count secrets.new ≡ sum_by breach_count secrets.old + (if result then 1 else 0) }
{
    let place = nonce as usize;
    if place >= secrets.len() {
        return false;
    }
    match &mut secrets[place] {
        Some(secret) => {
            let is_open = is_open(&secret.label, corruptions);
            secret.knowing.learn(is_open, from)
        }
        None => false,
    }
}

/// Notes that the attacker knows these nonces from the last entry on, but for those that were known before. It answers
/// how many breaches that gives.
pub(crate) fn learn_all(
    secrets: &mut [Option<Secret>],
    corruptions: &[Corruption],
    nonces: &[u32],
    last: u32,
) -> u64
    ensures secrets { (known : List ℕ) (T : List entries.Entry) → suc last ≡ length T →
        places_of corruptions.now ≡ look_ups.corruptions T → AllKnown known (take last T) → AreDerived T nonces.now →
        KeepsSecrets known [] T secrets.old → KeepsSecrets (known ++ nonces.now) nonces.now T secrets.new }
    ensures count { sum_by breach_count secrets.new ≡ sum_by breach_count secrets.old + result }
{
    let mut breaches = 0;
    for nonce in nonces {
        if learn(secrets, corruptions, *nonce, last) {
            breaches += 1;
        }
    }
    breaches
}
