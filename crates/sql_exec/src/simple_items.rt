// Items that are columns and windows: no expression is evaluated for them.
ghost use Rattle.std.specs.List.{AllByRecursion};
ghost use Rattle.std.specs.Prelude.{◌≡◌, length, map, zip, None, IfErr, IfOk, IfSome, OnOk};
ghost use Rattle.vtl_rows.specs.Tables.{column_kinds};
ghost use Rattle.sql_tree.specs.View.{item_tree};
ghost use Rattle.sql_check_parts.specs.Expressions.{site};
ghost use Rattle.sql_from.specs.Held.{tables_held};
ghost use Rattle.sql_meaning.specs.Outcomes.{row_at};
ghost use Rattle.sql_check_parts.specs.Scopes.{row_of};
ghost use Rattle.sql_meaning.specs.Selects.{item_value, plain_rows};
ghost use Rattle.sql_from.specs.Sources.{scope_held};
ghost use Rattle.sql_from.specs.Standing.{rows_for, sight_of};
ghost use Rattle.sql_meaning.specs.Tables.{RowsFit};
ghost use Rattle.sql_check_laws.specs.Selects.{IsItemTyped};
ghost use Rattle.sql_meaning.specs.Windows.{told_apart};
ghost use Rattle.sql_exec.specs.ItemCells.{values_in};
ghost use Rattle.sql_exec.specs.Outputs.{Adds};
ghost use Rattle.sql_exec.specs.Parts.{MakesKinds};
ghost use Rattle.sql_exec.specs.SimpleItems.{AreSimple, IsSimple};

use crate::gathered::column_place;
use crate::item_cells::ItemCells;
use crate::output::Output;
use sql_eval::Names;
use sql_from::TupleRows;
use sql_tree::{Item, ItemValue, Window};
use sql_window::{TabledRows, window_values};
use std::alloc::{AllocError, Global};
use vtl_cell::Kind;
use vtl_decimal::Profile;
use vtl_scalar::ScalarErr;

/// An item that is no expression to be evaluated.
pub(crate) enum SimpleItem<'s> {
    /// The column at this place of the rows of FROM, whose cells are of the item's kind as they stand.
    Column(usize),
    /// A window.
    Window(&'s Window),
}

// Written out, so that each owner sees one call and not the drop of each part.
impl Drop for SimpleItem<'_> {
    fn drop(self) {
        match self {
            SimpleItem::Column(_) => {}
            SimpleItem::Window(_) => {}
        }
    }
}

// The item, if it is simple.
fn simple_item<'s, N: Names>(names: &N, item: &'s Item, kind: Kind) -> Option<SimpleItem<'s>>
    ensures { IfSome result (IsSimple (N.scope names.now) (item_tree item.now, kind)) }
{
    match &item.value {
        ItemValue::Expr(_) => Some(SimpleItem::Column(column_place(names, item, kind)?)),
        ItemValue::Window(window) => Some(SimpleItem::Window(window)),
    }
}

/// The items, if each is a column whose cells are of the item's kind as they stand, or a window. It fails only if
/// memory runs out.
pub(crate) fn simple_items<'s, N: Names>(
    alloc: Global,
    names: &N,
    items: &'s [Item],
    kinds: &[Kind],
) -> Result<Option<Vec<SimpleItem<'s>>>, AllocError>
    requires { length kinds.now ≡ length items.now }
    ensures { IfOk result (λ found. IfSome found (λ v. AreSimple (N.scope names.now) (zip (map item_tree items.now) kinds.now) v.items)) }
{
    let mut simple = Vec::with_capacity(alloc, items.len())?;
    for i in 0..items.len() {
        let Some(item) = simple_item(names, &items[i], kinds[i]) else {
            return Ok(None);
        };
        simple.push(item)?;
    }
    Ok(Some(simple))
}

// The values of an item at all rows of FROM.
fn cells_of(
    alloc: Global,
    rows: &TabledRows<'_>,
    item: &Item,
    simple: &SimpleItem<'_>,
    kind: Kind,
    p: &Profile,
) -> Result<ItemCells, AllocError>
    requires typed { IsItemTyped (site p.now (tables_held rows.now.rows.now.sources.held) (scope_held rows.now.rows.now.sources.sources)) None (item_tree item.now) }
    requires simple { IsSimple (scope_held rows.now.rows.now.sources.sources) (item_tree item.now, kind) simple.now }
    requires fit { RowsFit (row_of (scope_held rows.now.rows.now.sources.sources)) (rows_for rows.now.rows.now.sources rows.now.rows.now.tuples) }
    ensures { IfOk result (λ x. values_in p.now (rows_for rows.now.rows.now.sources rows.now.rows.now.tuples) x ≡ map (item_value (sight_of p.now rows.now.rows.now.sources) (rows_for rows.now.rows.now.sources rows.now.rows.now.tuples) (item_tree item.now, kind)) (told_apart (rows_for rows.now.rows.now.sources rows.now.rows.now.tuples))) }
{
    match simple {
        SimpleItem::Column(place) => Ok(ItemCells::Own(*place)),
        SimpleItem::Window(window) => Ok(ItemCells::Made {
            values: window_values(alloc, rows, window, p)?.into_iter(),
            kind,
        }),
    }
}

// The values of items at all rows of FROM.
fn item_cells(
    alloc: Global,
    rows: &TabledRows<'_>,
    items: &[Item],
    simple: &[SimpleItem<'_>],
    kinds: &[Kind],
    p: &Profile,
) -> Result<Vec<ItemCells>, AllocError>
    requires typed { AllByRecursion (IsItemTyped (site p.now (tables_held rows.now.rows.now.sources.held) (scope_held rows.now.rows.now.sources.sources)) None) (map item_tree items.now) }
    requires many { length kinds.now ≡ length items.now }
    requires simple { AreSimple (scope_held rows.now.rows.now.sources.sources) (zip (map item_tree items.now) kinds.now) simple.now }
    requires fit { RowsFit (row_of (scope_held rows.now.rows.now.sources.sources)) (rows_for rows.now.rows.now.sources rows.now.rows.now.tuples) }
    ensures { IfOk result (λ v. map (values_in p.now (rows_for rows.now.rows.now.sources rows.now.rows.now.tuples)) v.items ≡ map (λ w. map (item_value (sight_of p.now rows.now.rows.now.sources) (rows_for rows.now.rows.now.sources rows.now.rows.now.tuples) w) (told_apart (rows_for rows.now.rows.now.sources rows.now.rows.now.tuples))) (zip (map item_tree items.now) kinds.now)) }
{
    let mut cells = Vec::with_capacity(alloc, items.len())?;
    for i in 0..items.len() {
        cells.push(cells_of(alloc, rows, &items[i], &simple[i], kinds[i], p)?)?;
    }
    Ok(cells)
}

/// Adds a row of the items, which are simple, for each row of FROM: a cell that stands in the row is copied, and a
/// value of a window is moved.
pub(crate) fn add_simple(
    alloc: Global,
    out: &mut Output,
    items: &[Item],
    simple: &[SimpleItem<'_>],
    rows: &TupleRows<'_>,
    kinds: &[Kind],
    p: &Profile,
) -> Result<(), ScalarErr>
    requires typed { AllByRecursion (IsItemTyped (site p.now (tables_held rows.now.sources.held) (scope_held rows.now.sources.sources)) None) (map item_tree items.now) }
    requires many { length kinds.now ≡ length items.now }
    requires simple { AreSimple (scope_held rows.now.sources.sources) (zip (map item_tree items.now) kinds.now) simple.now }
    requires columns { column_kinds out.old.table.columns ≡ kinds.now }
    requires fit { RowsFit (row_of (scope_held rows.now.sources.sources)) (rows_for rows.now.sources rows.now.tuples) }
    requires fitting { MakesKinds (scope_held rows.now.sources.sources) kinds.now (λ all. row_at (item_value (sight_of p.now rows.now.sources) all) (zip (map item_tree items.now) kinds.now)) }
    ensures adds { OnOk result (Adds (plain_rows (sight_of p.now rows.now.sources) (zip (map item_tree items.now) kinds.now) (rows_for rows.now.sources rows.now.tuples)) out.old out.new) }
    ensures err { IfErr result (λ e. e ≡ ScalarErr.OutOfMemory) }
{
    let tabled = TabledRows::of(alloc, rows)?;
    let mut cells = item_cells(alloc, &tabled, items, simple, kinds, p)?;
    out.table.reserve_rows(tabled.len())?;
    for number in 0..tabled.len() {
        out.add_across(&mut cells, tabled.row(number), p)?;
    }
    Ok(())
}
