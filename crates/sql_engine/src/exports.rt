// The tables that a script exports.
//
// Exports are given when all statements are carried out. No statement changes a table, so this is the same; and each
// export takes the table itself, copied only where it belongs to the caller too, as the table of an INPUT does.
ghost use Rattle.std.specs.Prelude.{◌≡◌, [], false, map, IfOk, IsSome, List, OnOk, Some, ℕ};
ghost use Rattle.vtl_text.specs.Texts.{same_text};
ghost use Rattle.vtl_rows.specs.Named.{table_of};
ghost use Rattle.sql_tree.specs.View.{statement_tree};
ghost use Rattle.sql_from.specs.Held.{tables_held};
ghost use Rattle.sql_engine.specs.Exported.{AreExported, exported_of, exports_in};

use crate::letting_go::without_rows;
use crate::orders::{RowOrder, placed};
use sql_from::HeldTables;
use sql_tree::Statement;
use std::alloc::{AllocError, Global};
use vtl_rows::{Outputs, SharedTable};
use vtl_text::Txt;

// Takes the table of a name, and leaves one without rows in its place.
fn take(alloc: Global, tables: &mut HeldTables, name: &Txt) -> Result<SharedTable, AllocError>
    requires { IsSome (table_of name.now tables.old) }
    ensures table { IfOk result (λ t. table_of name.now tables.old ≡ Some t) }
    ensures others { OnOk result ((other : List ℕ) → same_text name.now other ≡ false → table_of other tables.new ≡ table_of other tables.old) }
{
    let table = tables.get(name).unwrap();
    let empty = without_rows(alloc, table)?;
    let taken = tables.replace(name, empty).unwrap();
    Ok(taken.into_shared())
}

/// The tables that statements export, in the order of their EXPORTs, each with its rows in this order. A table is given
/// itself. It fails only if memory runs out.
pub(crate) fn exported(
    alloc: Global,
    tables: HeldTables,
    statements: &[Statement],
    order: RowOrder,
) -> Result<Outputs, AllocError>
    requires { AreExported (tables_held tables) [] (exports_in (map statement_tree statements.now)) }
    ensures { IfOk result (λ out. out ≡ map (exported_of order tables) (exports_in (map statement_tree statements.now))) }
{
    let mut left = tables;
    let mut out = Outputs::new(alloc);
    for statement in statements {
        let Statement::Export(export) = statement else {
            continue;
        };
        let taken = take(alloc, &mut left, &export.name)?;
        let table = placed(alloc, taken, export.order.as_slice(), order)?;
        out.put_shared(export.name.share()?, table)?;
    }
    Ok(out)
}
