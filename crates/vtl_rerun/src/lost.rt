// What is lost where an input is replaced.
ghost use Rattle.std.specs.Prelude.{◌≡◌, length};
ghost use Rattle.vtl_rerun.specs.Lost.{left_from};
ghost use Rattle.vtl_rerun.specs.Operands.{any_lost, is_lost};

use crate::given::held;
use crate::part::{Operand, Part, Source};
use vtl_rows::SharedTable;
use vtl_text::Txt;

// Whether an operand is the input that is replaced, or a result that no part holds.
fn is_lost(operand: &Operand, replaced: &Txt, results: &[Option<SharedTable>]) -> bool
    ensures { result ≡ is_lost replaced.now results.now operand.now }
{
    match operand.source {
        Source::Input => operand.name == *replaced,
        Source::Part(place) => held(results, place).is_none(),
    }
}

fn any_lost(operands: &[Operand], replaced: &Txt, results: &[Option<SharedTable>]) -> bool
    ensures { result ≡ any_lost replaced.now results.now operands.now }
{
    for operand in operands {
        if is_lost(operand, replaced, results) {
            return true;
        }
    }
    false
}

/// Lets go the results that depend on an input, directly or through others. It takes no memory.
pub(crate) fn let_go(parts: &[Part], replaced: &Txt, results: &mut [Option<SharedTable>])
    requires { length results.old ≡ length parts.now }
    ensures { results.new ≡ left_from 0 replaced.now parts.now results.old }
{
    for place in 0..parts.len() {
        if any_lost(&parts[place].operands, replaced, results) {
            results[place] = None;
        }
    }
}
