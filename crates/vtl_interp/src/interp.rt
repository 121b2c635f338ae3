// The interpreter.
ghost use Rattle.vtl_backend.specs.Inputs.{AreInputs};
ghost use Rattle.vtl_backend.specs.Runs.{script_meaning};
ghost use Rattle.vtl_interp.specs.Results.{ShownBy};

use crate::inputs::load;
use crate::statements::run_statements;
use std::alloc::Global;
use vtl_backend::Backend;
use vtl_check::Checked;
use vtl_rows::{Inputs, Outputs};
use vtl_scalar::RunErr;

/// The back end that evaluates the operators of a script one after the other, over tables in memory.
#[derive(Drop)]
pub struct Interp;

// The outputs of a script.
fn script_outputs(alloc: Global, script: &Checked, inputs: &Inputs) -> Result<Outputs, RunErr>
    requires inputs { AreInputs script.now inputs.now }
    ensures { ShownBy (script_meaning script.now inputs.now) result }
{
    let known = load(alloc, script, inputs)?;
    run_statements(
        alloc,
        known,
        script.statements(),
        script.nodes(),
        script.profile(),
    )
}

impl Backend for Interp {
    ghost work = { λ _. 0 };

    #[tactic(auto, using(crate::proofs::Writes::faulted))]
    fn run(
        &mut self,
        alloc: Global,
        script: &Checked,
        inputs: &Inputs,
        out: &mut Outputs,
    ) -> Result<(), RunErr> {
        *out = script_outputs(alloc, script, inputs)?;
        Ok(())
    }
}
