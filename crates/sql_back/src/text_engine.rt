// What runs texts of scripts in SQL.
//
// An engine of texts may give rows in any order (`TextEngine`), and that of this repository does: the contract of a
// back end does not see their order, and a test can hand in an engine that sorts otherwise.
//
// An engine tells the text that it was handed last, whatever it answered, so a back end that evaluates by itself can
// be told from one that hands over a text. That it hands on the engine's own answer no clause can say; a proved test
// of `vtl` shows it.
ghost use Rattle.std.specs.Prelude.{◌≡◌, ℕ, List, Option, Some, string_bytes};
ghost use Rattle.sql_back.specs.TextRuns.{CanRun, RunsText};

use std::alloc::Global;
use vtl_rows::{Inputs, Outputs};
use vtl_scalar::RunErr;

/// What runs texts of scripts in SQL over tables.
pub trait TextEngine {
    /// The text that was handed over last.
    ghost last: { Self → Option (List ℕ) };

    /// Runs the script that a text spells: on Ok `out` holds its exports and nothing else, one table for each, in
    /// order, with its name and its columns, and its rows in any order.
    ///
    /// # Errors
    ///
    /// The query of the first faulty CREATE divides by zero or has a number that is out of range; the fault names its
    /// table, up to the first `$`. Or there was not enough memory. In either case `out` is as before.
    fn run_text(
        &mut self,
        alloc: Global,
        text: String,
        inputs: &Inputs,
        out: &mut Outputs,
    ) -> Result<(), RunErr>
        requires { CanRun (string_bytes text) inputs.now }
        ensures run { RunsText (string_bytes text) inputs.now out.old out.new result }
        ensures last { last self.new ≡ Some (string_bytes text) };
}
