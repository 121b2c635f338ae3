// Targets of clauses.

use crate::Role;
use vtl_cell::Kind;
use vtl_text::Txt;

/// A target of `calc` or `aggr`, with the kind of its value.
#[derive(Debug, Drop)]
pub struct Target {
    /// Its name.
    pub name: Txt,
    /// The role, where one is written.
    pub role: Option<Role>,
    /// The kind of its value.
    pub kind: Kind,
}
