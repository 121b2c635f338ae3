// EXPORT.
ghost use Rattle.std.specs.Prelude.{◌≡◌, ◌||◌, not, IfOk};
ghost use Rattle.std.specs.Map.{keys_of};
ghost use Rattle.std.specs.Option.{option_copied};
ghost use Rattle.vtl_text.specs.Words.{is_word};
ghost use Rattle.sql_check_parts.specs.Rules.{least};
ghost use Rattle.sql_check_parts.specs.Scopes.{is_among};
ghost use Rattle.sql_check_parts.specs.Statements.{export_breaks, order_fits};

use crate::given::SoFar;
use crate::inputs::names_fit;
use sql_check_parts::{Columns, SqlRule, Test, least_broken};
use sql_tree::SqlExport;
use std::alloc::{AllocError, Global};
use vtl_text::{ByName, Txt, is_word};

fn order_fits(alloc: Global, columns: Option<&Columns>, order: &[Txt]) -> Result<bool, AllocError>
    ensures { IfOk result (λ b. b ≡ order_fits (option_copied columns.entry) order.now) }
{
    match columns {
        Some(columns) => names_fit(alloc, columns, order),
        None => Ok(true),
    }
}

fn is_misnamed(exported: &ByName<()>, name: &Txt) -> bool
    ensures { result ≡ (is_among name.now (keys_of exported.now) || not (is_word name.now)) }
{
    exported.has(name) || !is_word(name.as_str())
}

/// The least of the rules that an export breaks. It fails only if memory runs out.
pub fn export_fault(
    alloc: Global,
    given: &SoFar,
    export: &SqlExport,
) -> Result<Option<SqlRule>, AllocError>
    ensures { IfOk result (λ fault. fault ≡ least (export_breaks given.now.tables (keys_of given.now.exported) export.now)) }
{
    let columns = given.tables.columns(&export.name);
    let is_unknown = columns.is_none();
    let fits = order_fits(alloc, columns, export.order.as_slice())?;
    Ok(least_broken(&[
        Test {
            rule: SqlRule::UnknownTable,
            is_broken: is_unknown,
        },
        Test {
            rule: SqlRule::MisnamedTable,
            is_broken: is_misnamed(&given.exported, &export.name),
        },
        Test {
            rule: SqlRule::MisnamedColumn,
            is_broken: !fits,
        },
    ]))
}
