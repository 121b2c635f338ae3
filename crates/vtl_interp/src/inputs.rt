// The inputs of a script as data sets.
ghost use Rattle.std.specs.Prelude.{◌≡◌, ◌++◌, ◌∷◌, [], Some, IfOk, OnOk, false};
ghost use Rattle.std.specs.List.{list_any};
ghost use Rattle.std.specs.Map.{keys_of, lookup};
ghost use Rattle.vtl_tree.specs.Structure.{same_name};
ghost use Rattle.vtl_sets.specs.DataSets.{data_set};
ghost use Rattle.vtl_check.specs.Checked.{known_of};
ghost use Rattle.vtl_sets.specs.TableOf.{IsTableOf};
ghost use Rattle.vtl_backend.specs.Inputs.{AreInputs, environment_of, rows_named};
ghost use Rattle.vtl_interp.specs.Loaded.{IsInput};

use crate::held::Known;
use std::alloc::{AllocError, Global};
use vtl_check::Checked;
use vtl_rows::{Inputs, SharedTable};
use vtl_sets::DataSet;
use vtl_text::Txt;
use vtl_tree::Structure;

// The data set of a table, which is shared.
fn data_set_of(
    alloc: Global,
    structure: &Structure,
    table: &SharedTable,
) -> Result<DataSet, AllocError>
    requires { IsTableOf structure.now table.now }
    ensures { IfOk result (λ d. d ≡ data_set structure.now table.now.rows) }
{
    DataSet::shared(alloc, structure, table.share()?)
}

// The data set of an input.
fn input(
    alloc: Global,
    script: &Checked,
    inputs: &Inputs,
    name: &Txt,
) -> Result<DataSet, AllocError>
    requires { IsInput script.now inputs.now name.now }
    ensures structure { IfOk result (λ d. lookup (same_name name.now) (known_of script.now) ≡ Some d.structure) }
    ensures points { IfOk result (λ d. d.points ≡ rows_named name.now inputs.now) }
{
    match (script.structure(name), inputs.shared(name)) {
        (Some(structure), Some(table)) => data_set_of(alloc, structure, table),
        _ => unreachable!(),
    }
}

// Puts a data set after the others, under a name that none has yet.
fn put(known: &mut Known, name: &Txt, set: DataSet) -> Result<(), AllocError>
    requires { list_any (same_name name.now) (keys_of known.old.entries) ≡ false }
    ensures { OnOk result (known.new.entries ≡ known.old.entries ++ (name.now, set) ∷ []) }
{
    known.insert(name.share()?, set)?;
    Ok(())
}

/// The data sets that a script reads, whose tables are shared. It fails only if memory runs out.
pub fn load(alloc: Global, script: &Checked, inputs: &Inputs) -> Result<Known, AllocError>
    requires { AreInputs script.now inputs.now }
    ensures { IfOk result (λ k. k.entries ≡ environment_of script.now inputs.now) }
{
    let mut known = Known::new(alloc);
    for name in script.inputs() {
        let set = input(alloc, script, inputs, name)?;
        put(&mut known, name, set)?;
    }
    Ok(known)
}
