// Laws of the contract of back ends.
ghost use Rattle.std.specs.Prelude.{ℕ, List, Result};
ghost use Rattle.vtl_decimal.specs.declared.number.Fault.{Fault};
ghost use Rattle.vtl_rows.specs.Named.{NamedTables};
ghost use Rattle.vtl_scripts.specs.Meaning.{Outputs as Meant};
ghost use Rattle.vtl_backend.specs.Agree.{Agree};
ghost use Rattle.vtl_backend.specs.Runs.{Tells};
ghost use Rattle.vtl_scalar.specs.declared.run_error.RunErr.{RunErr as Error};

/// Two back ends that run a script over the same inputs answer the same: the same fault of the same result, or tables
/// of the same names in the same order, each with the same columns and, up to order, the same rows; unless memory runs
/// out.
pub fn answers_agree()
    ensures { (meant : Result Meant (Fault × List ℕ)) (before now past other : NamedTables) (a b : Result (Unit {0}) Error)
        → Tells meant before now a → Tells meant past other b → Agree a now b other }
{}
