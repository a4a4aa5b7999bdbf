//! The typing rules: what a handler knows, what its statements demand, and when a file is typed.
#![tactic(auto)]

mod laws;

pub use laws::{
    one_refused_place, statements_keep_the_order, stronger_knowledge_goes_further,
    the_strongest_derivation_decides, variables_stay_well_numbered,
    weaker_knowledge_of_a_handler_is_ordered,
};
