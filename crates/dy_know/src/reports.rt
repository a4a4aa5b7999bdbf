use dy_recipe::Recipe;
use sqlite_items::Items;

/// A nonce, and the entry from which on an attacker knows it.
#[derive(Debug, Drop)]
pub struct KnownFrom {
    pub nonce: u32,
    pub from: u32,
}

/// Where a trace breaks what its file promises.
#[derive(Debug, Drop)]
pub enum Breach {
    /// An attacker knows this nonce of a handler from an entry on, by a recipe, and its label is not open then.
    Nonce {
        nonce: u32,
        from: u32,
        recipe: Recipe,
    },
    /// The event at this index lacks a partner of its declaration, which has this number, counted from 1.
    Event {
        event: u32,
        partner: u32,
    },
}

/// What an attacker knows of the nonces of a trace, and the breaches, each in order.
#[derive(Debug, Drop)]
pub struct Report {
    pub known: Items<KnownFrom>,
    pub breaches: Items<Breach>,
}
