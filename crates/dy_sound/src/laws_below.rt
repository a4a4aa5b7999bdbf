ghost use Rattle.dy_sound.specs.LawsBelow.{LawsBelow};

use dy_entry::{
    corruptions_of_longer_traces, covered_versions_are_open, made_nonces_keep_their_labels,
};
use dy_label::more_corruptions_close_no_label;
use dy_traces::prefixes_are_interleavings;
use dy_types::what_a_meet_implies;
use dy_typing::weaker_knowledge_of_a_handler_is_ordered;

/// The laws of labels, knowledge and traces on which the proofs rest.
pub(crate) fn laws_below()
    ensures { LawsBelow }
{
    more_corruptions_close_no_label();
    corruptions_of_longer_traces();
    made_nonces_keep_their_labels();
    covered_versions_are_open();
    what_a_meet_implies();
    weaker_knowledge_of_a_handler_is_ordered();
    prefixes_are_interleavings();
}
