// Laws of the grammar.
ghost use Rattle.std.specs.Prelude.{◌≡◌, ◌⊎◌, ℕ, List, [], ◌∷◌, ◌++◌, Option, Some};
ghost use Rattle.vtl_lexer.specs.declared.token.Token.{Token};
ghost use Rattle.vtl_syntax.specs.Trees.{ScriptTree, StatementTree};
ghost use Rattle.vtl_grammar.specs.Faults.{SyntaxFault, WholeScript};
ghost use Rattle.vtl_grammar.specs.Fits.{InGrammar, SpellsScript};
ghost use Rattle.vtl_grammar.specs.Grammar.{Tokens, statement_onto};
ghost use Rattle.vtl_grammar.specs.ReadStatements.{statement_read};

/// Tokens spell at most one script.
pub fn scripts_are_unique()
    ensures { (ts : Tokens) (a b : ScriptTree) → SpellsScript ts a → SpellsScript ts b → a ≡ b }
{}

/// No statement's tokens begin those of another.
pub fn statements_do_not_begin_each_other()
    ensures { (ts more : Tokens) (a b : StatementTree) → SpellsScript ts (a ∷ []) → SpellsScript (ts ++ more) (b ∷ []) → more ≡ [] }
{}

/// A text is a script or has a fault, never both, and it has at most one fault.
pub fn faults_are_determined()
    ensures one { (ts : List Token) (bad : Option ℕ) (done byte other at : ℕ) → SyntaxFault ts bad done byte → SyntaxFault ts bad other at → (done ≡ other) × (byte ≡ at) }
    ensures apart { (ts : List Token) (bad : Option ℕ) (script : ScriptTree) (done byte : ℕ) → WholeScript ts bad script → SyntaxFault ts bad done byte → ⊥ }
    ensures either { (ts : List Token) (bad : Option ℕ) → ((script : ScriptTree) × WholeScript ts bad script) ⊎ ((done : ℕ) × (byte : ℕ) × SyntaxFault ts bad done byte) }
{}

/// Reading a statement gives the statement that stands at the front, where one does.
pub fn reading_is_exact()
    ensures read { (ts : Tokens) (s : StatementTree) (rest : Tokens) → statement_read ts ≡ Some (s, rest) → (ts ≡ statement_onto s rest) × InGrammar s }
    ensures all { (s : StatementTree) (rest : Tokens) → InGrammar s → statement_read (statement_onto s rest) ≡ Some (s, rest) }
{}
