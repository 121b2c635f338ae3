// The text of a script.
ghost use Rattle.std.specs.Prelude.{◌≡◌, IfOk, string_bytes};
ghost use Rattle.sql_print.specs.Printed.{HasTokens};
ghost use Rattle.sql_tree.specs.Formed.{PrintableScript};
ghost use Rattle.sql_tree.specs.Printing.{written_script};
ghost use Rattle.sql_tree.specs.Texts.{IsScript};
ghost use Rattle.sql_tree.specs.Trees.{ScriptTree};
ghost use Rattle.sql_tree.specs.View.{script_tree};

use crate::layout::lay_out;
use crate::statements::tokens_of;
use sql_tree::SqlScript;
use std::alloc::{AllocError, Global};

/// The text of the script. Where the script is printable, the text is this script and no other, and its brackets are
/// those that the script needs.
///
/// Each statement stands on a line, each clause of a query on a line of its own after two spaces, and a list is filled
/// to 100 characters a line. It fails only if memory runs out.
pub fn print(alloc: Global, script: &SqlScript) -> Result<String, AllocError>
    ensures script { IfOk result (λ text. PrintableScript (script_tree script.now) → IsScript (string_bytes text) (script_tree script.now)) }
    ensures alone { IfOk result (λ text. PrintableScript (script_tree script.now) → (other : ScriptTree) → IsScript (string_bytes text) other → other ≡ script_tree script.now) }
    ensures tokens { IfOk result (λ text. PrintableScript (script_tree script.now) → HasTokens (string_bytes text) (written_script (script_tree script.now))) }
{
    let tokens = tokens_of(alloc, script)?;
    lay_out(alloc, &tokens)
}
