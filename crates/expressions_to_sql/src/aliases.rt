// What the components of points are called in a select.
ghost use Rattle.std.specs.Prelude.{◌≡◌, IfOk};
ghost use Rattle.expressions_to_sql.specs.Aliases.{column_at, naming};
ghost use Rattle.expressions_to_sql.specs.ToSql.{column_of};

use sql_tree::Column;
use std::alloc::AllocError;
use vtl_text::Txt;

/// The columns of a select that are the components of points: by the aliases of its sources, of one or of two, or one by
/// one.
#[derive(Clone, Copy)]
pub enum Aliases<'a> {
    /// One source, whose columns are those of the points.
    One(&'a Txt),
    /// Two sources. So many columns of the points are those of the first, and the others are those of the second.
    Two {
        /// The alias of the first.
        first: &'a Txt,
        /// The alias of the second.
        second: &'a Txt,
        /// How many columns the first has.
        width: usize,
    },
    /// For each component the column at its place, of any source and any name.
    Each(&'a [Column]),
}

// A column of a source.
fn column_of(alias: &Txt, name: &Txt) -> Result<Column, AllocError>
    ensures { IfOk result (λ x. x ≡ column_of alias.now name.now) }
{
    Ok(Column {
        source: alias.share()?,
        name: name.share()?,
    })
}

// The column at a place.
fn column_at(columns: &[Column], place: usize, name: &Txt) -> Result<Column, AllocError>
    ensures { IfOk result (λ x. x ≡ column_at columns.now place name.now) }
{
    match columns.get(place) {
        Some(column) => column_of(&column.source, &column.name),
        None => column_of(name, name),
    }
}

impl Aliases<'_> {
    /// The column at a place, of a name. It fails only if memory runs out.
    pub(crate) fn column(&self, place: usize, name: &Txt) -> Result<Column, AllocError>
        ensures { IfOk result (λ x. x ≡ naming self.now place name.now) }
    {
        match self {
            Aliases::One(alias) => column_of(alias, name),
            Aliases::Two { first, width, .. } if place < *width => column_of(first, name),
            Aliases::Two { second, .. } => column_of(second, name),
            Aliases::Each(columns) => column_at(columns, place, name),
        }
    }
}
