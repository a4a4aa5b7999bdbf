ghost use Rattle.std.specs.Prelude.{◌≡◌, ℕ, ◌∷◌, [], List, sum_by, OnOk, OnErr};
ghost use Rattle.dy_term.specs.Terms as terms;
ghost use Rattle.dy_entry.specs.Entries as entries;
ghost use Rattle.dy_entry.specs.Attacker.{Derives};
ghost use Rattle.dy_derive.specs.KnowledgeMeaning.{Stands};
ghost use Rattle.dy_know.specs.MirrorAuditors.{KeepsSecrets, AreDerived, breach_count, is_breach};
ghost use Rattle.dy_know.specs.MirrorAuditors.{ExplainsKnowing, ExplainsAt};

use crate::secrets::{Knowing, Secret};
use dy_derive::Knowledge;
use dy_term::Memory;

impl Knowing {
    /// Makes the recipe of a breach of this nonce, if it is one that has none yet. It refuses out of memory alone.
    fn explain(&mut self, knowledge: &Knowledge, nonce: u32) -> Result<(), Memory>
        ensures ok { OnOk result ((T : List entries.Entry) → Stands knowledge.now T →
            Derives T (terms.Nonce nonce) → ExplainsKnowing T nonce self.old self.new) }
        ensures err { OnErr result (self.new ≡ self.old) }
        ensures breach { is_breach self.new ≡ is_breach self.old }
    {
        if let Knowing::Breach { from, recipe: None } = self {
            let from = *from;
            let recipe = knowledge.recipe_of_nonce(nonce)?;
            *self = Knowing::Breach { from, recipe };
        }
        Ok(())
    }
}

/// Makes the recipe of a breach of this nonce, if what is kept of it is one that has none yet. It refuses out of memory
/// alone.
fn add_recipe(
    secrets: &mut [Option<Secret>],
    knowledge: &Knowledge,
    nonce: u32,
) -> Result<(), Memory>
    ensures ok { OnOk result ((T : List entries.Entry) → Stands knowledge.now T →
        Derives T (terms.Nonce nonce) → ExplainsAt T nonce secrets.old secrets.new) }
    ensures err { OnErr result (secrets.new ≡ secrets.old) }
    ensures count { sum_by breach_count secrets.new ≡ sum_by breach_count secrets.old }
{
    let place = nonce as usize;
    if place >= secrets.len() {
        return Ok(());
    }
    match &mut secrets[place] {
        Some(secret) => secret.knowing.explain(knowledge, nonce),
        None => Ok(()),
    }
}

/// Makes the recipes that are missing, of these nonces. It refuses out of memory alone, and then may have made some.
pub(crate) fn add_recipes(
    secrets: &mut [Option<Secret>],
    knowledge: &Knowledge,
    nonces: &[u32],
) -> Result<(), Memory>
    ensures ok { OnOk result ((T : List entries.Entry) (known : List ℕ) → Stands knowledge.now T →
        AreDerived T nonces.now → KeepsSecrets known nonces.now T secrets.old → KeepsSecrets known [] T secrets.new) }
    ensures err { OnErr result ((T : List entries.Entry) (known : List ℕ) → Stands knowledge.now T →
        AreDerived T nonces.now → KeepsSecrets known nonces.now T secrets.old →
        KeepsSecrets known nonces.now T secrets.new) }
    ensures count { sum_by breach_count secrets.new ≡ sum_by breach_count secrets.old }
{
    for nonce in nonces {
        add_recipe(secrets, knowledge, *nonce)?;
    }
    Ok(())
}
