// Whether a script is typed.
ghost use Rattle.vtl_syntax.specs.View.{script_tree};
ghost use Rattle.vtl_syntax.specs.Written.{AreWritten};
ghost use Rattle.vtl_check.specs.Checked.{env_over};
ghost use Rattle.vtl_check.specs.Script.{Checks, script_typed, verdict};

use crate::{CheckErr, check};
use std::alloc::Global;
use vtl_decimal::Profile;
use vtl_syntax::Script;
use vtl_tree::Structures;

/// Whether a script is typed over declared structures, as `check` says, without its nodes.
pub fn verdict(
    alloc: Global,
    script: &Script,
    structures: &Structures,
    profile: &Profile,
) -> Result<(), CheckErr>
    requires written { AreWritten (script_tree script.now) }
    ensures { Checks (λ u. u) result (verdict (script_typed (env_over profile.now structures.now.sets) (script_tree script.now))) }
{
    match check(alloc, script, structures, profile) {
        Ok(_) => Ok(()),
        Err(error) => Err(error),
    }
}
