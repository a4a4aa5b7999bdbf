//! What a handler knows of its values, and what fits a declared type. Labels are kept as truth tables.
#![tactic(auto)]

mod claims;
mod facts;
mod field_types;
mod knowns;
mod laws;
mod meets;
mod uses;

pub use claims::{Claim, add_claim};
pub use facts::{Fact, has_fact};
pub use field_types::{Declared, claims_of, fits, narrow};
pub use knowns::{Known, identify, nobody_table, public_table};
pub use laws::{
    stronger_knowledge_has_more, weaker_knowledge_is_ordered, weaker_parts_give_weaker_knowledge,
    what_a_meet_implies,
};
pub use uses::StaticUse;

#[cfg(test)]
mod tests;
