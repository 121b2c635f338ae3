// The outputs of a script whose parts hold their results.
ghost use Rattle.std.specs.Prelude.{◌≡◌, [], length, IfOk};
ghost use Rattle.vtl_rerun.specs.Operands.{written_behind};

use crate::given::{held, put};
use crate::part::Part;
use std::alloc::{AllocError, Global};
use vtl_rows::{Outputs, SharedTable, Tables};

/// The tables of the parts whose result the script writes, shared, in order. It fails only if memory runs out.
pub(crate) fn written(
    alloc: Global,
    parts: &[Part],
    results: &[Option<SharedTable>],
) -> Result<Outputs, AllocError>
    requires { length results.now ≡ length parts.now }
    ensures { IfOk result (λ outputs. outputs ≡ written_behind [] parts.now results.now) }
{
    let mut outputs = Tables::new(alloc);
    for place in 0..parts.len() {
        let part = &parts[place];
        if part.is_written {
            put(&mut outputs, &part.name, held(results, place))?;
        }
    }
    Ok(outputs)
}
