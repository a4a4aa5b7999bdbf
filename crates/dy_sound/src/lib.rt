//! Accepts the files that are typed, and says why they are secure: what holds in their traces.
#![tactic(auto)]

mod acceptance;
mod laws;
mod laws_below;
mod laws_of_expressions;
mod laws_of_openings;
mod laws_of_statements;
mod laws_of_words;
mod typed_files;

pub use acceptance::{Accepted, Refusal, accept};
pub use laws::{
    a_start_keeps_a_trace_good, derived_values_may_be_known, good_traces_are_secure,
    the_attacker_keeps_a_trace_good, the_opening_trace_is_good, weaker_knowledge_holds,
    what_holds_stays_to_hold,
};
pub use laws_of_expressions::values_of_expressions_are_sound;
pub use laws_of_openings::openings_are_sound;
pub use laws_of_statements::statements_keep_what_is_known;
pub use laws_of_words::{
    declarations_mean_the_same, declared_words_stand_for_the_same, handlers_mean_the_same,
};
pub use typed_files::typed_is_secure;
