//! The audit of a trace: which honest nonces an attacker knows from which entry on, and where the trace breaks what its
//! file promises.
#![tactic(auto)]

mod adding;
mod audit_text;
mod auditing;
mod auditors;
mod copying;
mod declared_events;
mod explaining;
mod happened;
mod interleavings;
mod lacking;
mod laws;
mod learning;
mod move_text;
mod notes;
mod partners;
mod pushing;
mod reporting;
mod reports;
mod secrets;

pub use audit_text::write_audit;
pub use auditing::audit;
pub use auditors::Auditor;
pub use dy_derive::Knowledge;
pub use interleavings::{interleavings_give_small_values, interleavings_make_nonces_first};
pub use laws::{one_report_for_a_trace, secure_where_nothing_is_breached};
pub use reports::{Breach, KnownFrom, Report};

#[cfg(test)]
mod tests;
