// The rows of a grouped select: HAVING and the items at each group.
ghost use Rattle.std.specs.Prelude.{◌≡◌, true, ◌++◌, ◌∷◌, [], map, IfErr, IfOk, Ok, if◌then◌else◌};
ghost use Rattle.vtl_cell.specs.Outcome.{fault_in, faults_by, join};
ghost use Rattle.vtl_scalar.specs.Answers.{Answers};
ghost use Rattle.vtl_rows.specs.Tables.{fits};
ghost use Rattle.sql_meaning.specs.Outcomes.{cell_or_null};
ghost use Rattle.vtl_scalar.specs.Seen.{seen_of};
ghost use Rattle.sql_groups.specs.Items.{fault_for, item_at, passes, row_for, tested};

use sql_eval::{Cells, Resolved, value_at};
use std::alloc::Global;
use vtl_cell::{Cell, Kind};
use vtl_decimal::Profile;
use vtl_rows::Table;
use vtl_scalar::{ScalarErr, Seen, given_of_kind};

/// An item of a grouped select, and the kind of its column.
pub(crate) struct GroupItem {
    pub(crate) exp: Resolved,
    pub(crate) kind: Kind,
}

// Written out, so that a proof above sees one call and not the drop of each part.
impl Drop for GroupItem {
    fn drop(self) {
        let GroupItem {
            exp: _exp,
            kind: _kind,
        } = self;
    }
}

/// HAVING and the items of a grouped select, with places in place of names.
pub(crate) struct GroupSelect {
    pub(crate) having: Option<Resolved>,
    pub(crate) items: Vec<GroupItem>,
}

// Written out, so that a proof above sees one call and not the drop of each part.
impl Drop for GroupSelect {
    fn drop(self) {
        let GroupSelect {
            having: _having,
            items: _items,
        } = self;
    }
}

// Whether HAVING keeps a group.
fn is_kept<R: Cells>(
    alloc: Global,
    having: &Option<Resolved>,
    at: &R,
    p: &Profile,
) -> Result<bool, ScalarErr>
    ensures { Answers result (tested p.now (R.tables at.now) having.now (R.cells at.now) (R.group at.now)) }
{
    match having {
        Some(condition) => {
            let value = value_at(alloc, condition, at, p)?;
            Ok(matches!(value.cell(), Cell::Bool(true)))
        }
        None => Ok(true),
    }
}

// Puts the value of an item behind others, or null where it has a fault.
fn push_item<R: Cells>(
    alloc: Global,
    cells: &mut Vec<Cell>,
    seen: Seen,
    item: &GroupItem,
    at: &R,
    p: &Profile,
) -> Result<Seen, ScalarErr>
    ensures cells { IfOk result (λ _. cells.new.items ≡ cells.old.items ++ cell_or_null (item_at p.now (R.tables at.now) (R.cells at.now) (R.group at.now) item.now) ∷ []) }
    ensures seen { IfOk result (λ s. seen_of s ≡ join (seen_of seen) (fault_in (item_at p.now (R.tables at.now) (R.cells at.now) (R.group at.now) item.now))) }
    ensures err { IfErr result (λ e. e ≡ ScalarErr.OutOfMemory) }
{
    match given_of_kind(value_at(alloc, &item.exp, at, p), item.kind, p) {
        Ok(value) => {
            cells.push(value.into_cell()?)?;
            Ok(seen)
        }
        Err(error) => {
            let seen = seen.and(error)?;
            cells.push(Cell::Null)?;
            Ok(seen)
        }
    }
}

// Puts the values of items behind others.
fn push_items<R: Cells>(
    alloc: Global,
    cells: &mut Vec<Cell>,
    seen: Seen,
    items: &[GroupItem],
    at: &R,
    p: &Profile,
) -> Result<Seen, ScalarErr>
    ensures cells { IfOk result (λ _. cells.new.items ≡ cells.old.items ++ map (λ i. cell_or_null (item_at p.now (R.tables at.now) (R.cells at.now) (R.group at.now) i)) items.now) }
    ensures seen { IfOk result (λ s. seen_of s ≡ join (seen_of seen) (faults_by (λ i. fault_in (item_at p.now (R.tables at.now) (R.cells at.now) (R.group at.now) i)) items.now)) }
    ensures err { IfErr result (λ e. e ≡ ScalarErr.OutOfMemory) }
{
    let mut with_these = seen;
    for item in items {
        with_these = push_item(alloc, cells, with_these, item, at, p)?;
    }
    Ok(with_these)
}

/// Puts a row of the items behind others, where HAVING keeps the group.
pub(crate) fn push_group<R: Cells>(
    alloc: Global,
    table: &mut Table,
    cells: &mut Vec<Cell>,
    seen: Seen,
    select: &GroupSelect,
    at: &R,
    p: &Profile,
) -> Result<Seen, ScalarErr>
    requires { fits table.old.columns (row_for p.now (R.tables at.now) (R.cells at.now) (R.group at.now) select.now) ≡ true }
    ensures columns { table.new.columns ≡ table.old.columns }
    ensures rows { IfOk result (λ _. table.new.rows ≡ table.old.rows ++ (if passes (tested p.now (R.tables at.now) select.now.having (R.cells at.now) (R.group at.now)) then row_for p.now (R.tables at.now) (R.cells at.now) (R.group at.now) select.now ∷ [] else [])) }
    ensures seen { IfOk result (λ s. seen_of s ≡ join (seen_of seen) (fault_for p.now (R.tables at.now) (R.cells at.now) (R.group at.now) select.now)) }
    ensures err { IfErr result (λ e. e ≡ ScalarErr.OutOfMemory) }
{
    match is_kept(alloc, &select.having, at, p) {
        Ok(true) => {
            cells.clear();
            let with_these = push_items(alloc, cells, seen, &select.items, at, p)?;
            table.push_moved(cells)?;
            Ok(with_these)
        }
        Ok(false) => Ok(seen),
        Err(error) => seen.and(error),
    }
}
