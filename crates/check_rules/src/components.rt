// The components that checks show.
ghost use Rattle.std.specs.Prelude.{◌≡◌, ◌++◌, ◌∷◌, [], IfOk, OnOk, chars};
ghost use Rattle.vtl_tree.specs.Checks.{error_measures, output_parts, ruleid};
ghost use Rattle.vtl_tree.specs.Columns.{measures_of};
ghost use Rattle.vtl_tree.specs.Measures.{bool_var, made};
ghost use Rattle.vtl_tree.specs.Pairs.{imbalance};

use check_shapes::{bool_var, errorcode, errorlevel, imbalance};
use std::alloc::{AllocError, Global};
use vtl_cell::Kind;
use vtl_syntax::CheckOut;
use vtl_text::Txt;
use vtl_tree::{Component, Role, Structure, push_measures};

// A component without codes.
fn made(alloc: Global, name: &str, role: Role, kind: Kind) -> Result<Component, AllocError>
    ensures { IfOk result (λ x. x ≡ made (chars name.now) role kind) }
{
    Ok(Component {
        name: Txt::new(alloc, name)?,
        role,
        kind,
        codes: None,
    })
}

fn ruleid(alloc: Global) -> Result<Component, AllocError>
    ensures { IfOk result (λ x. x ≡ ruleid) }
{
    made(alloc, "ruleid", Role::Identifier, Kind::Text)
}

/// Adds the identifier of rules.
pub(crate) fn push_ruleid(alloc: Global, out: &mut Vec<Component>) -> Result<(), AllocError>
    ensures { OnOk result (out.new.items ≡ out.old.items ++ ruleid ∷ []) }
{
    out.push(ruleid(alloc)?)?;
    Ok(())
}

/// Adds the imbalance of the sides of a rule.
pub(crate) fn push_imbalance(alloc: Global, out: &mut Vec<Component>) -> Result<(), AllocError>
    ensures { OnOk result (out.new.items ≡ out.old.items ++ imbalance ∷ []) }
{
    out.push(imbalance(alloc)?)?;
    Ok(())
}

/// Adds the code and the level of errors.
pub(crate) fn push_errors(alloc: Global, out: &mut Vec<Component>) -> Result<(), AllocError>
    ensures { OnOk result (out.new.items ≡ out.old.items ++ error_measures) }
{
    out.push(errorcode(alloc)?)?;
    out.push(errorlevel(alloc)?)?;
    Ok(())
}

// Adds the truth of a rule.
fn push_truth(alloc: Global, out: &mut Vec<Component>) -> Result<(), AllocError>
    ensures { OnOk result (out.new.items ≡ out.old.items ++ bool_var ∷ []) }
{
    out.push(bool_var(alloc)?)?;
    Ok(())
}

/// Adds what an output shows of the operand's measures and of the truth of a rule.
pub(crate) fn push_output(
    alloc: Global,
    out: &mut Vec<Component>,
    output: CheckOut,
    structure: &Structure,
) -> Result<(), AllocError>
    ensures { OnOk result (out.new.items ≡ out.old.items ++ output_parts output (measures_of structure.now) bool_var []) }
{
    let components = structure.components.as_slice();
    match output {
        CheckOut::Invalid => push_measures(out, components),
        CheckOut::All => push_truth(alloc, out),
        CheckOut::AllMeasures => {
            push_measures(out, components)?;
            push_truth(alloc, out)
        }
    }
}
