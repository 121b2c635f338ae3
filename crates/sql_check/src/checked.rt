// Scripts that are typed.
//
// `SqlChecked` keeps that it is formed and typed as its invariant, so who holds one need not ask again.
ghost use Rattle.std.specs.Prelude.{◌≡◌, IfOk};
ghost use Rattle.sql_tree.specs.Formed.{FormedScript};
ghost use Rattle.sql_tree.specs.View.{script_tree};
ghost use Rattle.sql_check_parts.specs.Statements.{IsTypedScript, script_settings};
ghost use Rattle.sql_check.specs.Answers.{Checks};

use crate::SqlTypeErr;
use crate::scripts::script_fault;
use crate::settings::settings;
use sql_tree::SqlScript;
use std::alloc::Global;
use std::marker::Model;
use vtl_decimal::Profile;

/// A script that is formed and typed, with the profile of its SET.
#[derive(Drop)]
pub struct SqlChecked {
    script: SqlScript,
    profile: Profile,
}

impl Model for SqlChecked {
    ghost use Rattle.std.specs.Coded.{codes};
    ghost use Rattle.std.specs.Prelude.{◌≡◌};
    ghost use Rattle.sql_tree.specs.Formed.{FormedScript};
    ghost use Rattle.sql_tree.specs.View.{script_tree};
    ghost use Rattle.sql_tree.specs.contracts.statements.SqlScript as s;
    ghost use Rattle.sql_check_parts.specs.Statements.{IsTypedScript, script_settings};
    ghost use Rattle.sql_check.specs.Answers as answers;

    ghost Value = { answers.CheckedScript };

    ghost coded = { Prim.hlevel (codes, s.the_row.coded) };

    ghost view = { λ c. record { script = c.script; settings = c.profile } };

    ghost invariant = { λ c. FormedScript (script_tree c.script) × IsTypedScript (script_tree c.script) × (c.profile ≡ script_settings (script_tree c.script)) };
}

impl SqlChecked {
    /// A script that is formed and typed. It takes no memory.
    pub fn of(script: SqlScript) -> SqlChecked
        requires formed { FormedScript (script_tree script) }
        requires typed { IsTypedScript (script_tree script) }
        ensures script { result.script ≡ script }
        ensures settings { result.settings ≡ script_settings (script_tree script) }
    {
        match settings(&script.scale, script.rounding) {
            Some(profile) => SqlChecked { script, profile },
            None => unreachable!(),
        }
    }

    /// The script.
    pub fn script(&self) -> &SqlScript
        ensures script { result.now ≡ self.now.script }
        ensures formed { FormedScript (script_tree result.now) }
        ensures typed { IsTypedScript (script_tree result.now) }
    {
        &self.script
    }

    /// The profile of its SET.
    pub fn profile(&self) -> &Profile
        ensures settings { result.now ≡ self.now.settings }
        ensures set { result.now ≡ script_settings (script_tree self.now.script) }
    {
        &self.profile
    }
}

/// A script that is formed, typed. It fails exactly where a statement breaks a rule, with the first such statement and
/// the least rule that it breaks, and if memory runs out. The script is dropped then.
pub fn check(alloc: Global, script: SqlScript) -> Result<SqlChecked, SqlTypeErr>
    requires { FormedScript (script_tree script) }
    ensures checks { Checks script result }
    ensures settings { IfOk result (λ checked. checked.settings ≡ script_settings (script_tree script)) }
{
    match script_fault(alloc, &script)? {
        Some((statement, rule)) => Err(SqlTypeErr::Mistyped {
            statement,
            rule: rule.number(),
        }),
        None => Ok(SqlChecked::of(script)),
    }
}
