// HAVING and items with places in place of names.
ghost use Rattle.std.specs.Prelude.{◌≡◌, IfOk, length, map, option_map, zip};
ghost use Rattle.sql_tree.specs.Trees as tree;
ghost use Rattle.sql_tree.specs.View.{expr_tree, item_tree, value_tree};
ghost use Rattle.sql_groups.specs.Resolved.{AllStand, HasValueOf, HavingStands, IsResolved, StandsFor, group_sight};

use crate::items::{GroupItem, GroupSelect};
use sql_eval::{GroupColumns, Kinded, Level, Names, Resolved, resolve};
use sql_tree::{Item, ItemValue, Select, SqlExpr};
use std::alloc::{AllocError, Global};
use vtl_cell::{Cell, Kind};
use vtl_decimal::Profile;

// An expression at groups.
fn resolved<N: Names>(
    alloc: Global,
    p: &Profile,
    names: &N,
    group: &GroupColumns<'_>,
    e: &SqlExpr,
) -> Result<Resolved, AllocError>
    ensures { IfOk result (HasValueOf (group_sight p.now (N.tables names.now) (N.scope names.now) group.now) (tree.expression (expr_tree e.now))) }
{
    let level = Level::Groups(group);
    let Kinded { exp, kind: _kind } = resolve(alloc, p, names, &level, e)?;
    Ok(exp)
}

// The value of an item. A window stands in no grouped select.
#[tactic(auto, using(sql_eval::proofs::Views::views))]
fn resolved_value<N: Names>(
    alloc: Global,
    p: &Profile,
    names: &N,
    group: &GroupColumns<'_>,
    value: &ItemValue,
) -> Result<Resolved, AllocError>
    ensures { IfOk result (HasValueOf (group_sight p.now (N.tables names.now) (N.scope names.now) group.now) (value_tree value.now)) }
{
    match value {
        ItemValue::Expr(e) => resolved(alloc, p, names, group, e),
        ItemValue::Window(_) => Ok(Resolved::Const(Cell::Null)),
    }
}

// An item, and the kind of its column.
fn resolved_item<N: Names>(
    alloc: Global,
    p: &Profile,
    names: &N,
    group: &GroupColumns<'_>,
    item: &Item,
    kind: &Kind,
) -> Result<GroupItem, AllocError>
    ensures { IfOk result (StandsFor (group_sight p.now (N.tables names.now) (N.scope names.now) group.now) (item_tree item.now, kind.now)) }
{
    Ok(GroupItem {
        exp: resolved_value(alloc, p, names, group, &item.value)?,
        kind: *kind,
    })
}

// The items, and the kinds of their columns.
fn resolved_items<N: Names>(
    alloc: Global,
    p: &Profile,
    names: &N,
    group: &GroupColumns<'_>,
    items: &[Item],
    kinds: &[Kind],
) -> Result<Vec<GroupItem>, AllocError>
    requires { length kinds.now ≡ length items.now }
    ensures { IfOk result (λ v. AllStand (group_sight p.now (N.tables names.now) (N.scope names.now) group.now) (zip (map item_tree items.now) kinds.now) v.items) }
{
    let mut resolved = Vec::with_capacity(alloc, items.len())?;
    for i in 0..items.len() {
        resolved.push(resolved_item(alloc, p, names, group, &items[i], &kinds[i])?)?;
    }
    Ok(resolved)
}

// HAVING, where it is written.
fn resolved_having<N: Names>(
    alloc: Global,
    p: &Profile,
    names: &N,
    group: &GroupColumns<'_>,
    having: &Option<SqlExpr>,
) -> Result<Option<Resolved>, AllocError>
    ensures { IfOk result (HavingStands (group_sight p.now (N.tables names.now) (N.scope names.now) group.now) (option_map expr_tree having.now)) }
{
    match having {
        Some(e) => Ok(Some(resolved(alloc, p, names, group, e)?)),
        None => Ok(None),
    }
}

/// HAVING and the items of a grouped select, resolved once for all groups. It fails only if memory runs out.
pub(crate) fn resolve_groups<N: Names>(
    alloc: Global,
    p: &Profile,
    names: &N,
    select: &Select,
    kinds: &[Kind],
) -> Result<GroupSelect, AllocError>
    requires { length kinds.now ≡ length select.now.items }
    ensures { IfOk result (IsResolved (group_sight p.now (N.tables names.now) (N.scope names.now) select.now.group) (zip (map item_tree select.now.items) kinds.now) (option_map expr_tree select.now.having)) }
{
    let group = GroupColumns::of(alloc, select.group.as_slice())?;
    Ok(GroupSelect {
        having: resolved_having(alloc, p, names, &group, &select.having)?,
        items: resolved_items(alloc, p, names, &group, select.items.as_slice(), kinds)?,
    })
}
