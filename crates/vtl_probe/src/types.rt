// The typing of scripts.
ghost use Rattle.vtl_syntax.specs.View.{script_tree};
ghost use Rattle.vtl_syntax.specs.Written.{AreWritten};

use crate::notation::profile;
use crate::refusals;
use crate::report::Report;
use crate::rows::Row;
use crate::structures::push_components;
use crate::trouble::CaseErr;
use std::alloc::{AllocError, Global};
use vtl_check::{Checked, check};
use vtl_csv::read_structures;
use vtl_decimal::Profile;
use vtl_parser::parse;
use vtl_syntax::Script;
use vtl_tree::Structures;

// What is reported about a script, with the exit code that `vtl` has for it.
fn answered(
    alloc: Global,
    text: &str,
    structures: &str,
    profile: &Profile,
) -> Result<Report, AllocError> {
    match parse(alloc, text) {
        Ok(script) => over_structures(alloc, &script, structures, profile),
        Err(error) => refusals::of_text(alloc, error),
    }
}

fn over_structures(
    alloc: Global,
    script: &Script,
    structures: &str,
    profile: &Profile,
) -> Result<Report, AllocError>
    requires { AreWritten (script_tree script.now) }
{
    match read_structures(alloc, structures.as_bytes()) {
        Ok(declared) => with_structures(alloc, script, &declared.structures, profile),
        Err(error) => refusals::of_structures(alloc, error),
    }
}

fn with_structures(
    alloc: Global,
    script: &Script,
    structures: &Structures,
    profile: &Profile,
) -> Result<Report, AllocError>
    requires { AreWritten (script_tree script.now) }
{
    match check(alloc, script, structures, profile) {
        Ok(checked) => last_structure(alloc, &checked),
        Err(error) => refusals::of_types(alloc, error),
    }
}

// The structure of the last result, one component after another.
fn last_structure(alloc: Global, checked: &Checked) -> Result<Report, AllocError> {
    let mut report = refusals::nothing(alloc)?;
    if let Some(node) = checked.nodes().last() {
        push_components(&mut report.text, node.structure.components.as_slice())?;
    }
    Ok(report)
}

// What comes of a script over the structures that its table has.
pub(crate) fn outcome(alloc: Global, structures: &str, row: &Row) -> Result<String, CaseErr> {
    let profile = profile(row.field(0), "half_up")?;
    Ok(answered(alloc, row.field(1), structures, &profile)?.text)
}
