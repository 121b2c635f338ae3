// The columns of GROUP BY, by name.
//
// Each is found by its source and then by its name, both in order: an expression over many groups' columns takes no
// time with the square of their number. They are put from the last one on, so of two that are the same the first counts.
ghost use Rattle.std.specs.List.{position_or_len};
ghost use Rattle.std.specs.Map.{lookup};
ghost use Rattle.std.specs.Prelude.{◌≡◌, ℕ, List, OnOk, IfOk, Some, false, option_and_then, if◌then◌else◌};
ghost use Rattle.vtl_text.specs.Texts.{same_text};
ghost use Rattle.sql_check_parts.specs.Scopes.{found};
ghost use Rattle.sql_meaning.specs.Values.{same_column};
ghost use Rattle.sql_tree.specs.declared.parts.Column.{Column};
ghost use Rattle.sql_eval.specs.GroupPlaces.{place_from};

use crate::naming::set_named;
use sql_tree::Column;
use std::alloc::{AllocError, Global};
use std::marker::Model;
use vtl_text::{ByName, Txt};

/// The columns of GROUP BY, found by name. A contract sees them in order.
pub struct GroupColumns<'a> {
    columns: &'a [Column],
    places: ByName<ByName<usize>>,
}

// Written out, so that a proof above sees one call and not the drop of each part.
impl Drop for GroupColumns<'_> {
    fn drop(self) {
        let GroupColumns {
            columns: _,
            places: _places,
        } = self;
    }
}

impl<'a> Model for GroupColumns<'a> {
    ghost use Rattle.std.specs.Prelude.{List};
    ghost use Rattle.sql_tree.specs.declared.parts.Column.{Column};
    ghost use Rattle.sql_eval.specs.GroupPlaces.{FindsColumns};

    ghost Value = { List Column };

    ghost view = { λ g. g.columns.now };

    ghost invariant = { λ g. FindsColumns g.columns.now g.places };
}

// Takes the names of a source out, and leaves none.
fn names_of(alloc: Global, places: &mut ByName<ByName<usize>>, source: &Txt) -> ByName<usize>
    ensures names { (name : List ℕ) → lookup (same_text name) result ≡ option_and_then (λ named. lookup (same_text name) named) (lookup (same_text source.now) places.old) }
    ensures others { (other : List ℕ) → same_text source.now other ≡ false → lookup (same_text other) places.new ≡ lookup (same_text other) places.old }
{
    match places.replace(source, ByName::new(alloc)) {
        Some(named) => named,
        None => ByName::new(alloc),
    }
}

// Puts a column, in place of another that is the same.
fn put_place(
    alloc: Global,
    places: &mut ByName<ByName<usize>>,
    column: &Column,
    place: usize,
) -> Result<(), AllocError>
    ensures { OnOk result ((x : Column) → found places.new x ≡ (if same_column x column.now then Some place else found places.old x)) }
{
    let mut named = names_of(alloc, places, &column.source);
    set_named(&mut named, &column.name, place)?;
    set_named(places, &column.source, named)
}

impl<'a> GroupColumns<'a> {
    /// The columns, put in order of their names. It fails only if memory runs out.
    pub fn of(alloc: Global, columns: &'a [Column]) -> Result<GroupColumns<'a>, AllocError>
        ensures { IfOk result (λ g. g ≡ columns.now) }
    {
        let mut places = ByName::new(alloc);
        let mut place = columns.len();
        while place > 0 {
            place -= 1;
            put_place(alloc, &mut places, &columns[place], place)?;
        }
        Ok(GroupColumns { columns, places })
    }

    // The place of a column among them, if it is there.
    fn known_place(&self, column: &Column) -> Option<usize>
        ensures { result ≡ place_from (same_column column.now) 0 self.now }
    {
        let named = self.places.get(&column.source)?;
        named.get(&column.name).copied()
    }

    // The place of a column among them; past the last one where it is not there.
    pub(crate) fn place(&self, column: &Column) -> usize
        ensures { result ≡ position_or_len (same_column column.now) self.now }
    {
        match self.known_place(column) {
            Some(place) => place,
            None => self.columns.len(),
        }
    }
}
