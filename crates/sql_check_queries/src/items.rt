// The items of a select.
ghost use Rattle.std.specs.Prelude.{◌≡◌, map, IfOk};
ghost use Rattle.sql_tree.specs.View.{item_tree, value_tree};
ghost use Rattle.sql_check_parts.specs.Queries.{item_name, value_breaks, value_kind};
ghost use Rattle.sql_check_parts.specs.Told.{IsTold};
ghost use Rattle.sql_check_queries.specs.Told.{HasItems};

use sql_check_expressions::{Site, expression};
use sql_check_parts::{Grouping, SqlRule, Told, lesser, window};
use sql_tree::{Item, ItemValue};
use std::alloc::{AllocError, Global};
use vtl_cell::Kind;
use vtl_text::{List, Txt};

/// The kinds of items, and the least of the rules that they break.
#[derive(Drop)]
pub(crate) struct ItemsTold {
    pub(crate) kinds: List<Kind>,
    pub(crate) fault: Option<SqlRule>,
}

fn value(
    alloc: Global,
    at: &Site,
    group: &Option<Grouping>,
    value: &ItemValue,
) -> Result<Told, AllocError>
    ensures { IfOk result (IsTold (value_kind at.now.scope (value_tree value.now)) (value_breaks at.now group.now (value_tree value.now))) }
{
    match value {
        ItemValue::Expr(e) => expression(alloc, at, group, e),
        ItemValue::Window(over) => window(alloc, at.profile(), at.scope(), group, over),
    }
}

/// The items of a select. It fails only if memory runs out.
pub(crate) fn items(
    alloc: Global,
    at: &Site,
    group: &Option<Grouping>,
    items: &[Item],
) -> Result<ItemsTold, AllocError>
    ensures { IfOk result (HasItems at.now group.now (map item_tree items.now)) }
{
    let mut kinds = Vec::new(alloc);
    let mut fault = None;
    for item in items {
        let typed = value(alloc, at, group, &item.value)?;
        kinds.push(typed.kind)?;
        fault = lesser(fault, typed.fault);
    }
    Ok(ItemsTold {
        kinds: List::of(kinds),
        fault,
    })
}

/// The names of items. It fails only if memory runs out.
pub(crate) fn names(alloc: Global, items: &[Item]) -> Result<List<Txt>, AllocError>
    ensures { IfOk result (λ names. names ≡ map item_name (map item_tree items.now)) }
{
    let mut names = Vec::new(alloc);
    for item in items {
        names.push(item.name.share()?)?;
    }
    Ok(List::of(names))
}
