//! Labels, corruptions, and when one label implies another.
#![tactic(auto)]

mod label_laws;
mod label_nodes;
mod label_stack;
mod labels;
mod laws_of_words;
mod readers;
mod state_order;
mod tables;
mod usages;
mod word_lists;
mod words;

pub use label_laws::{
    more_corruptions_close_no_label, readers_are_put_in_place,
    versions_are_covered_where_they_are_open,
};
pub use label_stack::LabelStack;
pub use labels::{Label, LabelShape, LabelView, is_open};
pub use laws_of_words::{
    choices_and_rows, implication_by_rows, labels_are_open_as_their_words_are, tables_never_fall,
    versions_decide_implication,
};
pub use readers::{Corruption, Reader};
pub use state_order::states_are_in_one_order;
pub use tables::{
    BLOCK_ROWS, BLOCKS, NEXT_BIT, PRIOR_BIT, ROW_BITS, ROWS, SESSION_BIT, Table, entails, join,
    meet, table_of, within,
};
pub use usages::{Kind, Outcome, Usage};
pub use word_lists::{copy_words, same_words};
pub use words::{Atom, NAMES, Scope, StaticLabel};

#[cfg(test)]
mod label_tests;
#[cfg(test)]
mod table_tests;
