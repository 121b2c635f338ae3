// Whether the script is typed over the structures.
//
// The settings of a run stand in the typed script alone once it is typed: typing is handed them, and inputs
// are read and outputs written with what `Checked` holds. So no clause ties two copies of them.
ghost use Rattle.std.specs.Prelude.{◌≡◌, IfOk};
ghost use Rattle.vtl_syntax.specs.View.{script_tree};
ghost use Rattle.vtl_syntax.specs.Written.{AreWritten};
ghost use Rattle.vtl_check.specs.Checked.{env_over, nodes_of};
ghost use Rattle.vtl_check.specs.Script.{script_typed};
ghost use Rattle.vtl_top.specs.Expected.{typed_or_fault};
ghost use Rattle.vtl_top.specs.Refusal.{SettlesBy};

use std::alloc::Global;
use vtl_check::{CheckErr, Checked, check};
use vtl_decimal::Profile;
use vtl_status::Status;
use vtl_syntax::Script;
use vtl_tree::Structures;

/// The script with its typing over the structures, or the status of the first statement that breaks a rule; or that
/// memory ran out.
pub fn typed(
    alloc: Global,
    script: &Script,
    structures: &Structures,
    profile: &Profile,
) -> Result<Checked, Status>
    requires { AreWritten (script_tree script.now) }
    ensures typing { SettlesBy nodes_of (typed_or_fault (script_typed (env_over profile.now structures.now.sets) (script_tree script.now))) result }
    ensures script { IfOk result (λ c. c.script ≡ script.now.statements) }
    ensures declared { IfOk result (λ c. c.declared ≡ structures.now.sets) }
    ensures lists { IfOk result (λ c. c.not_null ≡ structures.now.not_null) }
    ensures settings { IfOk result (λ c. c.settings ≡ profile.now) }
{
    match check(alloc, script, structures, profile) {
        Ok(checked) => Ok(checked),
        Err(CheckErr::Mistyped { statement, rule }) => Err(Status::Mistyped { statement, rule }),
        Err(CheckErr::OutOfMemory) => Err(Status::Memory),
    }
}
