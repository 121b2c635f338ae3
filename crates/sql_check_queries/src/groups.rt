// Groups.
ghost use Rattle.std.specs.List.{list_any};
ghost use Rattle.std.specs.Prelude.{◌≡◌, map, IfOk};
ghost use Rattle.sql_tree.specs.View.{item_tree, select_tree};
ghost use Rattle.sql_check_parts.specs.Queries.{groups_of, is_grouped, item_aggregates};

use sql_check_expressions::has_aggregate;
use sql_check_parts::Grouping;
use sql_tree::{Item, ItemValue, Select};
use std::alloc::{AllocError, Global};

fn item_aggregates(item: &Item) -> bool
    ensures { result ≡ item_aggregates (item_tree item.now) }
{
    match &item.value {
        ItemValue::Expr(e) => has_aggregate(e),
        ItemValue::Window(_) => false,
    }
}

fn any_aggregates(items: &[Item]) -> bool
    ensures { result ≡ list_any item_aggregates (map item_tree items.now) }
{
    for item in items {
        if item_aggregates(item) {
            return true;
        }
    }
    false
}

/// Whether a select is grouped: by GROUP BY, by HAVING, or by an aggregate in an item.
pub fn is_grouped(select: &Select) -> bool
    ensures { result ≡ is_grouped (select_tree select.now) }
{
    !select.group.as_slice().is_empty()
        || select.having.is_some()
        || any_aggregates(select.items.as_slice())
}

/// The columns of GROUP BY, where the select is grouped. It fails only if memory runs out.
pub(crate) fn groups_of(alloc: Global, select: &Select) -> Result<Option<Grouping>, AllocError>
    ensures { IfOk result (λ group. group ≡ groups_of (select_tree select.now)) }
{
    if is_grouped(select) {
        Ok(Some(Grouping::of(alloc, select.group.as_slice())?))
    } else {
        Ok(None)
    }
}
