// The columns of a query.
//
// Typing is not asked again. Its tables hold no two columns of one name, and the program's may, so the engine finds
// kinds by resolving (`resolve` gives them) and shares them by typing's own step (`share_kinds`).
ghost use Rattle.std.specs.List.{AllByRecursion};
ghost use Rattle.std.specs.Prelude.{◌≡◌, fold, length, map, zip, IfOk, OnOk};
ghost use Rattle.sql_tree.specs.View.{item_tree, select_tree, value_tree};
ghost use Rattle.sql_check_parts.specs.Queries.{beside, item_kind, kinds_of, shared_kinds, value_kind};
ghost use Rattle.sql_check_parts.specs.Scopes.{or_null};
ghost use Rattle.sql_meaning.specs.Tables.{column_entry};
ghost use Rattle.sql_from.specs.FromTables.{from_given};
ghost use Rattle.sql_from.specs.Held.{tables_held};
ghost use Rattle.sql_check_laws.specs.Selects.{IsSelectTyped};
ghost use Rattle.sql_exec.specs.Items.{HasCallKind, IsKindKnown};

use crate::window_kinds::window_kind;
use sql_check_parts::or_null;
use sql_check_queries::{all_some, join_source, share_kinds};
use sql_eval::{Level, Names, resolve};
use sql_from::{FromTables, Given, Sources};
use sql_tree::{Item, ItemValue, Select};
use std::alloc::{AllocError, Global};
use vtl_cell::Kind;
use vtl_decimal::Profile;
use vtl_rows::Column;

// The kind of an item.
fn value_kind<N: Names>(
    alloc: Global,
    p: &Profile,
    names: &N,
    value: &ItemValue,
) -> Result<Kind, AllocError>
    requires { HasCallKind (N.scope names.now) (value_tree value.now) }
    ensures { IfOk result (λ kind. kind ≡ value_kind (N.scope names.now) (value_tree value.now)) }
{
    match value {
        ItemValue::Expr(e) => Ok(resolve(alloc, p, names, &Level::Rows, e)?.kind),
        ItemValue::Window(window) => Ok(window_kind(names, window)),
    }
}

// The kinds of items.
fn item_kinds<N: Names>(
    alloc: Global,
    p: &Profile,
    names: &N,
    items: &[Item],
) -> Result<Vec<Kind>, AllocError>
    requires { AllByRecursion (IsKindKnown (N.scope names.now)) (map item_tree items.now) }
    ensures { IfOk result (λ v. v.items ≡ map (item_kind (N.scope names.now)) (map item_tree items.now)) }
{
    let mut kinds = Vec::with_capacity(alloc, items.len())?;
    for item in items {
        kinds.push(value_kind(alloc, p, names, &item.value)?)?;
    }
    Ok(kinds)
}

// The kinds of the items of a select.
fn select_kinds(
    alloc: Global,
    p: &Profile,
    tables: &Given<'_>,
    from: &FromTables<'_>,
    select: &Select,
) -> Result<Vec<Kind>, AllocError>
    requires typed { IsSelectTyped p.now (tables_held tables.now) (select_tree select.now) }
    requires from { from.now ≡ from_given tables.now (select_tree select.now) }
    ensures { IfOk result (λ v. v.items ≡ kinds_of (tables_held tables.now) (select_tree select.now)) }
{
    let joins = select.joins.as_slice();
    let mut sources = Sources::over(alloc, tables).with(&select.from, from.at(0))?;
    for place in 0..joins.len() {
        let source = join_source(&joins[place]);
        sources = sources.with(source, from.at(place + 1))?;
    }
    item_kinds(alloc, p, &sources, select.items.as_slice())
}

// Shares kinds with those of further selects.
fn share_others(
    alloc: Global,
    p: &Profile,
    tables: &Given<'_>,
    from: &[FromTables<'_>],
    shared: &mut [Option<Kind>],
    others: &[Select],
) -> Result<(), AllocError>
    requires typed { AllByRecursion (IsSelectTyped p.now (tables_held tables.now)) (map select_tree others.now) }
    requires from { from.now ≡ map (from_given tables.now) (map select_tree others.now) }
    ensures { OnOk result (shared.new ≡ fold (λ kinds other. beside kinds (kinds_of (tables_held tables.now) other)) shared.old (map select_tree others.now)) }
{
    for i in 0..others.len() {
        let kinds = select_kinds(alloc, p, tables, &from[i], &others[i])?;
        share_kinds(shared, &kinds);
    }
    Ok(())
}

// The kinds that are shared; that of null where there is none.
fn known_kinds(alloc: Global, shared: &[Option<Kind>]) -> Result<Vec<Kind>, AllocError>
    ensures { IfOk result (λ v. v.items ≡ map or_null shared.now) }
{
    let mut kinds = Vec::with_capacity(alloc, shared.len())?;
    for kind in shared {
        kinds.push(or_null(*kind))?;
    }
    Ok(kinds)
}

/// The kinds that the items of all selects share, by their places; that of null where there is none. It fails only if
/// memory runs out.
pub(crate) fn query_kinds(
    alloc: Global,
    p: &Profile,
    tables: &Given<'_>,
    from: &[FromTables<'_>],
    selects: &[Select],
) -> Result<Vec<Kind>, AllocError>
    requires typed { AllByRecursion (IsSelectTyped p.now (tables_held tables.now)) (map select_tree selects.now) }
    requires from { from.now ≡ map (from_given tables.now) (map select_tree selects.now) }
    ensures { IfOk result (λ v. v.items ≡ map or_null (shared_kinds (tables_held tables.now) (map select_tree selects.now))) }
{
    let Some((first, others)) = selects.split_first() else {
        return Ok(Vec::new(alloc));
    };
    let Some((from_first, from_others)) = from.split_first() else {
        return Ok(Vec::new(alloc));
    };
    let kinds = select_kinds(alloc, p, tables, from_first, first)?;
    let mut shared = all_some(alloc, &kinds)?;
    share_others(alloc, p, tables, from_others, &mut shared, others)?;
    known_kinds(alloc, &shared)
}

/// Columns with the names of items, of these kinds. It fails only if memory runs out.
pub(crate) fn named_columns(
    alloc: Global,
    items: &[Item],
    kinds: &[Kind],
) -> Result<Vec<Column>, AllocError>
    requires { length kinds.now ≡ length items.now }
    ensures { IfOk result (λ v. map column_entry v.items ≡ zip (map (λ item. item.name) items.now) kinds.now) }
{
    let mut columns = Vec::with_capacity(alloc, items.len())?;
    for i in 0..items.len() {
        columns.push(Column {
            name: items[i].name.share()?,
            kind: kinds[i],
        })?;
    }
    Ok(columns)
}
