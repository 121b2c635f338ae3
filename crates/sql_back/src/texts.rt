// The text of a typed script.
ghost use Rattle.std.specs.Prelude.{IfOk, string_bytes};
ghost use Rattle.sql_tree.specs.Texts.{IsScript as IsSpelled};
ghost use Rattle.vtl_backend.specs.Inputs.{inputs_of};
ghost use Rattle.vtl_backend.specs.Statements.{statements_of};
ghost use Rattle.vtl_to_sql.specs.Conditions.{IsScript};
ghost use Rattle.vtl_to_sql.specs.Scripts.{script_for};
ghost use Rattle.sql_back.specs.Texts.{IsTextOf};

use sql_print::print;
use std::alloc::{AllocError, Global};
use vtl_check::Checked;
use vtl_to_sql::translate;

/// The text of a script in SQL: it spells the script's translation and no other, which breaks no rule, reads the same
/// data sets and means the same. It fails only if memory runs out.
pub fn text_of(alloc: Global, script: &Checked) -> Result<String, AllocError>
    ensures text { IfOk result (λ t. IsTextOf script.now (string_bytes t)) }
    ensures script { IfOk result (λ t. IsSpelled (string_bytes t) (script_for script.now.settings script.now.not_null (inputs_of script.now) (statements_of script.now))) }
    ensures accepted { IfOk result (λ t. IsScript script.now.settings (inputs_of script.now) (statements_of script.now)) }
{
    let translated = translate(alloc, script)?;
    print(alloc, &translated)
}
