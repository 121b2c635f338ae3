// Columns, and the columns that rows are sorted by.

use vtl_cell::Kind;
use vtl_text::Txt;

/// A column of a table: its name, and the kind of its cells.
#[derive(Debug)]
pub struct Column {
    /// The name.
    pub name: Txt,
    /// The kind that every cell has that is not null.
    pub kind: Kind,
}

// Written out, so that a proof above sees one call and not the drop of each part.
impl Drop for Column {
    fn drop(self) {
        let Column {
            name: _name,
            kind: _kind,
        } = self;
    }
}

/// A column to sort by.
#[derive(Clone, Copy, Debug, PartialEq, Eq)]
pub struct SortKey {
    /// The place of the column.
    pub column: usize,
    /// Whether the greatest cells come first.
    pub falling: bool,
}
