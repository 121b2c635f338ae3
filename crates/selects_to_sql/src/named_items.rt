// Items of selects, each of which has the name of the next column of a result.
ghost use Rattle.std.specs.Prelude.{◌∷◌, [], OnOk};
ghost use Rattle.vtl_tree.specs.Shown.{shown};
ghost use Rattle.sql_tree.specs.View.{expr_tree};
ghost use Rattle.selects_to_sql.specs.NamedItems.{AreNext, own_columns};

use crate::items::push_item;
use crate::writer::Writer;
use sql_tree::{Item, SqlExpr};
use std::alloc::AllocError;
use vtl_tree::Component;

/// Adds an expression as the next column of a result, where there is one more. It fails only if memory runs out.
pub fn push_next(
    items: &mut Vec<Item>,
    value: SqlExpr,
    columns: &[&Component],
) -> Result<(), AllocError>
    ensures { OnOk result (AreNext items.old.items items.new.items (expr_tree value ∷ []) (shown columns.now)) }
{
    let place = items.len();
    if place < columns.len() {
        push_item(items, value, &columns[place].name)?;
    }
    Ok(())
}

/// Adds columns of the first source as the next columns of a result. It fails only if memory runs out.
pub fn push_own(
    writer: &Writer,
    items: &mut Vec<Item>,
    components: &[&Component],
    columns: &[&Component],
) -> Result<(), AllocError>
    ensures { OnOk result (AreNext items.old.items items.new.items (own_columns (shown components.now)) (shown columns.now)) }
{
    for component in components {
        push_next(items, writer.column(&component.name)?, columns)?;
    }
    Ok(())
}
