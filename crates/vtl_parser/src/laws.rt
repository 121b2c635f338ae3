// Laws of reading texts.
ghost use Rattle.std.specs.Prelude.{◌≡◌, ℕ, List};
ghost use Rattle.vtl_grammar.specs.Written.{Written};
ghost use Rattle.vtl_parser.specs.Parsed.{IsFaulty, IsScript};
ghost use Rattle.vtl_syntax.specs.Trees.{ScriptTree};
ghost use Rattle.vtl_syntax.specs.Written.{AreWritten};

/// A text is at most one script or has at most one fault, and never both.
pub fn texts_are_read_once()
    ensures one { (text : List ℕ) (a b : ScriptTree) → IsScript text a → IsScript text b → a ≡ b }
    ensures apart { (text : List ℕ) (script : ScriptTree) (done byte : ℕ) → IsScript text script → IsFaulty text done byte → ⊥ }
    ensures faults { (text : List ℕ) (done byte other at : ℕ) → IsFaulty text done byte → IsFaulty text other at → (done ≡ other) × (byte ≡ at) }
{}

/// A script that a text spells is well formed: each statement is in the grammar, its names are names and its numbers
/// digits. A well formed script is written as trees have it: names are names, no list is empty, and no statement is
/// too deep.
pub fn scripts_are_written()
    ensures spelled { (text : List ℕ) (script : ScriptTree) → IsScript text script → Written script }
    ensures written { (script : ScriptTree) → Written script → AreWritten script }
{}
