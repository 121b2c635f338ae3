// Scripts.
ghost use Rattle.std.specs.Prelude.{◌≡◌, IfOk, map};
ghost use Rattle.sql_tree.specs.View.{script_tree, statement_tree};
ghost use Rattle.sql_check_parts.specs.Statements.{fault_from, nothing, script_fault};

use crate::given::SoFar;
use crate::settings::settings;
use crate::statements::statement;
use sql_check_parts::SqlRule;
use sql_tree::{SqlScript, Statement};
use std::alloc::{AllocError, Global};
use vtl_decimal::Profile;

fn statements_fault(
    alloc: Global,
    profile: &Profile,
    statements: &[Statement],
) -> Result<Option<(usize, SqlRule)>, AllocError>
    ensures { IfOk result (λ fault. fault ≡ fault_from profile.now 2 nothing (map statement_tree statements.now)) }
{
    let mut given = SoFar::new(alloc);
    for i in 0..statements.len() {
        if let Some(rule) = statement(alloc, profile, &mut given, &statements[i])? {
            return Ok(Some((i + 2, rule)));
        }
    }
    Ok(None)
}

/// The fault of a script: its first faulty statement, counted from 1 with SET, and the least rule that it breaks. It
/// fails only if memory runs out.
pub fn script_fault(
    alloc: Global,
    script: &SqlScript,
) -> Result<Option<(usize, SqlRule)>, AllocError>
    ensures { IfOk result (λ fault. fault ≡ script_fault (script_tree script.now)) }
{
    match settings(&script.scale, script.rounding) {
        Some(profile) => statements_fault(alloc, &profile, script.statements.as_slice()),
        None => Ok(Some((1, SqlRule::UnfitLiteral))),
    }
}
