use crate::declarations::Decl;
use crate::plans::Plan;
use sqlite_items::Items;

/// A protocol file: its declarations in order, and its plan. The version is 1.
#[derive(Debug, Drop)]
pub struct File {
    pub version: u8,
    pub decls: Items<Decl>,
    pub plan: Plan,
}
