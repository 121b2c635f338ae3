// Laws of the grammar.
ghost use Rattle.std.specs.Prelude.{◌≡◌, ◌≤◌, ◌++◌, ℕ, List, Option, Some};
ghost use Rattle.grammar_forms.specs.Scripts.{ScriptSpells, SyntaxFault, WholeScript};
ghost use Rattle.sql_lexer.specs.declared.token.Token.{Token};
ghost use Rattle.sql_tree.specs.Depth.{Spelled};
ghost use Rattle.sql_tree.specs.Grammar.{Tokens, expr, most_levels, statement_at};
ghost use Rattle.sql_tree.specs.Texts.{kind, start};
ghost use Rattle.sql_tree.specs.Trees.{Exp, ScriptTree, StatementTree};

/// Tokens spell at most one statement, no statement's tokens begin another's, and reading gives exactly what is
/// spelled.
pub fn statements_are_unique()
    ensures one { (i : ℕ) (ts : Tokens) (a b : StatementTree) → (statement_at i).spells ts a → (statement_at i).spells ts b → a ≡ b }
    ensures exact { (i : ℕ) (front rest other left : Tokens) (a b : StatementTree) → front ++ rest ≡ other ++ left → (statement_at i).spells front a → (statement_at i).spells other b → (a ≡ b) × (rest ≡ left) }
    ensures read { (i : ℕ) (ts : Tokens) (a : StatementTree) (rest : Tokens) → (statement_at i).reads ts ≡ Some (a, rest) → (front : Tokens) × (ts ≡ front ++ rest) × (statement_at i).spells front a }
    ensures all { (i : ℕ) (ts rest : Tokens) (a : StatementTree) → (statement_at i).spells ts a → (statement_at i).reads (ts ++ rest) ≡ Some (a, rest) }
{}

/// Tokens are at most one script or have at most one fault, and never both.
pub fn scripts_are_unique()
    ensures one { (ts : Tokens) (a b : ScriptTree) → ScriptSpells statement_at 0 ts a → ScriptSpells statement_at 0 ts b → a ≡ b }
    ensures faults { (ts : List Token) (bad : Option ℕ) (end done byte other at : ℕ) → SyntaxFault kind start statement_at 1 ts bad end done byte → SyntaxFault kind start statement_at 1 ts bad end other at → (done ≡ other) × (byte ≡ at) }
    ensures apart { (ts : List Token) (bad : Option ℕ) (end : ℕ) (script : ScriptTree) (done byte : ℕ) → WholeScript kind statement_at 1 ts bad script → SyntaxFault kind start statement_at 1 ts bad end done byte → ⊥ }
{}

/// The expressions of statements are those of at most 512 levels that some tokens spell without a bound.
pub fn expressions_are_bounded_by_depth()
    ensures there { (ts : Tokens) (e : Exp) → expr.spells ts e → (depth : ℕ) × Spelled ts e depth × (depth ≤ most_levels) }
    ensures back { (ts : Tokens) (e : Exp) (depth : ℕ) → Spelled ts e depth → depth ≤ most_levels → expr.spells ts e }
{}
