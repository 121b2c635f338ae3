// The canonical text of a script.
ghost use Rattle.std.specs.Prelude.{◌≡◌, ℕ, MatchResult, string_bytes};
ghost use Rattle.vtl_format.specs.Form.{IsFormOf};
ghost use Rattle.vtl_format.specs.Formed.{IsFormed};
ghost use Rattle.vtl_parser.specs.Parsed.{IsFault, IsFaulty, IsMemory, IsScript, IsSyntaxError};
ghost use Rattle.vtl_syntax.specs.Trees.{ScriptTree};

use crate::statements::form;
use std::alloc::Global;
use vtl_parser::{ParseErr, parse};

/// The canonical text of the script `text`: the same tokens and comments, with one choice of what stands between them.
/// It fails exactly where `parse` does, with the same fault, and if memory runs out.
///
/// - Each statement stands on a line of its own, and before it its comments: those in it and those between it and the
///   statement before. Comments behind the last statement stand at the end. Each comment has lines of its own.
/// - Tokens have one space between them; none stands before `,` `;` `:` `)` `]` `}` `[` `#`, none behind `(` `[` `{` `#`,
///   and none between the word of a call and its `(`.
/// - A transformation of more than 100 characters breaks at each bracket and behind each comma.
/// - In a definition each rule has a line of its own, and so has what ends it.
pub fn format(alloc: Global, text: &str) -> Result<String, ParseErr>
    ensures answer { MatchResult result (λ out. IsFormed text.now (string_bytes out)) (λ error. IsFault text.now error) }
    ensures scripts { (script : ScriptTree) → IsScript text.now script → MatchResult result (λ out. IsFormOf text.now (string_bytes out)) (λ error. IsMemory error) }
    ensures faults { (done byte : ℕ) → IsFaulty text.now done byte → MatchResult result (λ out. ⊥) (λ error. IsSyntaxError done byte error) }
{
    parse(alloc, text)?;
    Ok(form(alloc, text)?)
}
