// Items of a select that is not grouped, with places in place of names.
//
// The values of a window are made once, before the rows of its select, and lent at each row by its number; an
// expression is evaluated at the row. So an item is one of two sources of values (`ItemValues`), and the rows go by
// one loop.
ghost use Rattle.std.specs.Prelude.{◌≡◌, ◌++◌, ◌∷◌, [], ℕ, map, length, zip, IfErr, IfOk, IfSome, None, Ok};
ghost use Rattle.std.specs.List.{AllByRecursion};
ghost use Rattle.vtl_cell.specs.Outcome.{fault_in, join};
ghost use Rattle.vtl_decimal.specs.Settings.{Settings};
ghost use Rattle.vtl_scalar.specs.Answers.{AnswersBy};
ghost use Rattle.vtl_scalar.specs.Given.{given_cell};
ghost use Rattle.sql_tree.specs.View.{item_tree, value_tree};
ghost use Rattle.sql_check_parts.specs.Expressions.{site};
ghost use Rattle.sql_from.specs.Held.{tables_held};
ghost use Rattle.sql_meaning.specs.Outcomes.{cell_or_null, row_at, row_fault};
ghost use Rattle.vtl_scalar.specs.Seen.{seen_of};
ghost use Rattle.sql_from.specs.Sources.{scope_held};
ghost use Rattle.sql_from.specs.Standing.{rows_for, sight_of};
ghost use Rattle.sql_check_laws.specs.Selects.{IsItemTyped, IsValueTyped};
ghost use Rattle.sql_exec.specs.Items.{HasValuesOf, HaveValuesOf, made_at_row, made_value};

use sql_eval::{Cells, Level, Resolved, resolve, value_at};
use sql_from::TupleRows;
use sql_tree::{Item, ItemValue};
use sql_window::{TabledRows, window_values};
use std::alloc::{AllocError, Global};
use vtl_cell::{Cell, Kind, clone_cell};
use vtl_decimal::{Fault, Profile};
use vtl_scalar::{Given, ScalarErr, Seen, given_of_kind};

/// The values of an item at the rows of FROM.
pub(crate) enum ItemValues {
    /// Those of an expression, with places.
    Expression(Resolved),
    /// Those of a window, by the numbers of the rows.
    Window(Vec<Result<Cell, Fault>>),
}

// Written out, so that each owner sees one call and not the drop of each part.
impl Drop for ItemValues {
    fn drop(self) {
        match self {
            ItemValues::Expression(_e) => {}
            ItemValues::Window(_cells) => {}
        }
    }
}

// The value of a window, which is lent.
fn lent_value<'v>(value: &'v Result<Cell, Fault>) -> Result<Given<'v>, ScalarErr>
    ensures { AnswersBy given_cell result value.now }
{
    match value {
        Ok(cell) => Ok(Given::Lent(cell)),
        Err(fault) => Err(ScalarErr::from(*fault)),
    }
}

impl ItemValues {
    /// The value at a row of FROM of this number.
    pub(crate) fn at<'v, R: Cells>(
        &'v self,
        alloc: Global,
        row: &'v R,
        number: usize,
        p: &Profile,
    ) -> Result<Given<'v>, ScalarErr>
        requires { R.group row.now ≡ [] }
        ensures { AnswersBy given_cell result (made_value p.now (R.tables row.now) self.now (R.cells row.now, number)) }
    {
        match self {
            ItemValues::Expression(e) => value_at(alloc, e, row, p),
            ItemValues::Window(cells) => match cells.get(number) {
                Some(value) => lent_value(value),
                None => Ok(Given::Made(Cell::Null)),
            },
        }
    }
}

/// An item, and the kind of its column.
pub(crate) struct RowItem {
    pub(crate) values: ItemValues,
    pub(crate) kind: Kind,
}

// Written out, so that each owner sees one call and not the drop of each part.
impl Drop for RowItem {
    fn drop(self) {
        let RowItem {
            values: _values,
            kind: _kind,
        } = self;
    }
}

// The values of an item at the rows of FROM.
fn item_values(
    alloc: Global,
    p: &Profile,
    rows: &TupleRows<'_>,
    value: &ItemValue,
) -> Result<ItemValues, AllocError>
    requires { IsValueTyped (site p.now (tables_held rows.now.sources.held) (scope_held rows.now.sources.sources)) None (value_tree value.now) }
    ensures { IfOk result (HasValuesOf (sight_of p.now rows.now.sources) (rows_for rows.now.sources rows.now.tuples) (value_tree value.now)) }
{
    match value {
        ItemValue::Expr(e) => {
            let resolved = resolve(alloc, p, &rows.sources, &Level::Rows, e)?;
            Ok(ItemValues::Expression(resolved.exp))
        }
        ItemValue::Window(window) => {
            let tabled = TabledRows::of(alloc, rows)?;
            Ok(ItemValues::Window(window_values(alloc, &tabled, window, p)?))
        }
    }
}

/// The items of a select at the rows of FROM, each with the kind of its column: the values of windows are made here,
/// once for all rows. It fails only if memory runs out.
pub(crate) fn row_items(
    alloc: Global,
    p: &Profile,
    rows: &TupleRows<'_>,
    items: &[Item],
    kinds: &[Kind],
) -> Result<Vec<RowItem>, AllocError>
    requires typed { AllByRecursion (IsItemTyped (site p.now (tables_held rows.now.sources.held) (scope_held rows.now.sources.sources)) None) (map item_tree items.now) }
    requires many { length kinds.now ≡ length items.now }
    ensures { IfOk result (λ v. HaveValuesOf (sight_of p.now rows.now.sources) (rows_for rows.now.sources rows.now.tuples) (zip (map item_tree items.now) kinds.now) v.items) }
{
    let mut row_items = Vec::with_capacity(alloc, items.len())?;
    for i in 0..items.len() {
        row_items.push(RowItem {
            values: item_values(alloc, p, rows, &items[i].value)?,
            kind: kinds[i],
        })?;
    }
    Ok(row_items)
}

// The value of an item that is a column, where its cell is of the item's kind as it stands.
fn lent_column<'v, R: Cells>(item: &RowItem, at: &'v R) -> Option<&'v Cell>
    ensures { IfSome result (λ cell. (p : Settings) (number : ℕ) → made_at_row p (R.tables at.now) item.now (R.cells at.now, number) ≡ Ok cell.now) }
{
    let ItemValues::Expression(Resolved::Column(place)) = &item.values else {
        return None;
    };
    match (item.kind, at.cell(*place)) {
        (Kind::Num, Cell::Int(_)) => None,
        (_, cell) => Some(cell),
    }
}

// Puts the value of an item behind others, or null where it has a fault. Most items are columns, whose cells are copied
// at once.
fn push_item<R: Cells>(
    alloc: Global,
    cells: &mut Vec<Cell>,
    seen: Seen,
    item: &RowItem,
    at: &R,
    number: usize,
    p: &Profile,
) -> Result<Seen, ScalarErr>
    requires { R.group at.now ≡ [] }
    ensures cells { IfOk result (λ _. cells.new.items ≡ cells.old.items ++ cell_or_null (made_at_row p.now (R.tables at.now) item.now (R.cells at.now, number)) ∷ []) }
    ensures seen { IfOk result (λ s. seen_of s ≡ join (seen_of seen) (fault_in (made_at_row p.now (R.tables at.now) item.now (R.cells at.now, number)))) }
    ensures err { IfErr result (λ e. e ≡ ScalarErr.OutOfMemory) }
{
    if let Some(cell) = lent_column(item, at) {
        cells.push(clone_cell(cell)?)?;
        return Ok(seen);
    }
    match given_of_kind(item.values.at(alloc, at, number, p), item.kind, p) {
        Ok(value) => {
            cells.push(value.into_cell()?)?;
            Ok(seen)
        }
        Err(error) => {
            let seen = seen.and(error)?;
            cells.push(Cell::Null)?;
            Ok(seen)
        }
    }
}

/// Puts the values of items at a row of FROM of this number behind others; null stands for one that has a fault.
pub(crate) fn push_items<R: Cells>(
    alloc: Global,
    cells: &mut Vec<Cell>,
    seen: Seen,
    items: &[RowItem],
    at: &R,
    number: usize,
    p: &Profile,
) -> Result<Seen, ScalarErr>
    requires { R.group at.now ≡ [] }
    ensures cells { IfOk result (λ _. cells.new.items ≡ cells.old.items ++ row_at (made_at_row p.now (R.tables at.now)) items.now (R.cells at.now, number)) }
    ensures seen { IfOk result (λ s. seen_of s ≡ join (seen_of seen) (row_fault (made_at_row p.now (R.tables at.now)) items.now (R.cells at.now, number))) }
    ensures err { IfErr result (λ e. e ≡ ScalarErr.OutOfMemory) }
{
    let mut with_these = seen;
    for item in items {
        with_these = push_item(alloc, cells, with_these, item, at, number, p)?;
    }
    Ok(with_these)
}
