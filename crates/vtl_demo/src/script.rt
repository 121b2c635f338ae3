// The script, read from its text and typed.
ghost use Rattle.std.specs.Prelude.{◌≡◌, IfOk};
ghost use Rattle.vtl_syntax.specs.View.{script_tree};
ghost use Rattle.vtl_syntax.specs.Written.{AreWritten};
ghost use Rattle.vtl_demo.specs.Script.{settings, tree};
ghost use Rattle.vtl_demo.specs.Typed.{IsDemonstration};

use crate::structures::structures;
use std::alloc::{AllocError, Global};
use vtl_check::{CheckErr, Checked, check};
use vtl_decimal::{Profile, Rounding};
use vtl_parser::{ParseErr, parse};
use vtl_syntax::Script;

const SCRIPT: &str =
    "DS_j <- inner_join(D_A as a, D_B as b);\nDS_g <- sum(DS_j[calc measure v := Me_1 * Me_2][keep v] group by Id_2);\n";

const SCALE: u8 = 6;

fn profile() -> Profile
    ensures { result ≡ settings }
{
    Profile::new(SCALE, Rounding::HalfUp).unwrap()
}

fn parsed(alloc: Global) -> Result<Script, AllocError>
    ensures tree { IfOk result (λ s. script_tree s ≡ tree) }
    ensures written { IfOk result (λ s. AreWritten (script_tree s)) }
{
    match parse(alloc, SCRIPT) {
        Ok(script) => Ok(script),
        Err(ParseErr::OutOfMemory) => Err(AllocError),
        Err(ParseErr::Syntax { .. }) => unreachable!(),
    }
}

/// The script of the demonstration, typed over the structures of its data sets. It fails only if memory runs out.
pub(crate) fn script(alloc: Global) -> Result<Checked, AllocError>
    ensures { IfOk result IsDemonstration }
{
    let structures = structures(alloc)?;
    let script = parsed(alloc)?;
    match check(alloc, &script, &structures, &profile()) {
        Ok(checked) => Ok(checked),
        Err(CheckErr::OutOfMemory) => Err(AllocError),
        Err(CheckErr::Mistyped { .. }) => unreachable!(),
    }
}
