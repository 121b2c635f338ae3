// Laws of the canonical text.
ghost use Rattle.std.specs.Prelude.{◌≡◌, [], ℕ, false, List, None, map};
ghost use Rattle.vtl_lexer.specs.Lexed.{IsLexed};
ghost use Rattle.vtl_lexer.specs.Parts.{HasParts};
ghost use Rattle.vtl_lexer.specs.Pieces.{pieces_of};
ghost use Rattle.vtl_lexer.specs.declared.parts.Part.{Part};
ghost use Rattle.vtl_lexer.specs.declared.token.Token.{Token};
ghost use Rattle.vtl_parser.specs.Parsed.{IsScript};
ghost use Rattle.vtl_grammar.specs.Faults.{kinds};
ghost use Rattle.vtl_grammar.specs.Fits.{SpellsScript};
ghost use Rattle.vtl_grammar.specs.Grammar.{statement_onto};
ghost use Rattle.vtl_syntax.specs.Trees.{ScriptTree};
ghost use Rattle.vtl_format.specs.Form.{IsFormOf, kinds_of, lexemes, lexemes_at, remarks, statements};

/// The canonical text has the tokens of the text, kind and bytes, in order.
pub fn formatted_texts_have_their_tokens()
    ensures { (text out : List ℕ) (tokens : List Token) → IsFormOf text out → IsLexed text tokens None
        → (others : List Token) × IsLexed out others None × (lexemes_at out others ≡ lexemes_at text tokens) }
{}

/// The statements of a script, as `;` tells them, are those of the grammar.
pub fn statements_are_those_of_the_grammar()
    ensures { (text : List ℕ) (tokens : List Token) (script : ScriptTree) → SpellsScript (kinds tokens) script
        → map kinds_of (statements false (lexemes_at text tokens)) ≡ map (λ statement. statement_onto statement []) script }
{}

/// The canonical text of a script spells that script.
pub fn formatted_scripts_are_their_scripts()
    ensures { (text out : List ℕ) (script : ScriptTree) → IsFormOf text out → IsScript text script → IsScript out script }
{}

/// It has the comments of the text, each behind as many statements.
pub fn formatted_texts_have_their_comments()
    ensures { (text out : List ℕ) (parts : List Part) → IsFormOf text out → HasParts text parts None
        → (others : List Part) × HasParts out others None × (remarks (pieces_of out others) ≡ remarks (pieces_of text parts)) }
{}

/// The canonical text is its own.
pub fn formatted_texts_are_formatted()
    ensures stable { (text out : List ℕ) → IsFormOf text out → IsFormOf out out }
    ensures only { (text out other : List ℕ) → IsFormOf text out → IsFormOf out other → other ≡ out }
{}

/// A text has one canonical text, and so have all texts with the same tokens and comments.
pub fn forms_are_determined()
    ensures one { (text out other : List ℕ) → IsFormOf text out → IsFormOf text other → out ≡ other }
    ensures alike { (a b out other : List ℕ) (parts others : List Part) → HasParts a parts None → HasParts b others None
        → lexemes (pieces_of a parts) ≡ lexemes (pieces_of b others) → remarks (pieces_of a parts) ≡ remarks (pieces_of b others)
        → IsFormOf a out → IsFormOf b other → out ≡ other }
{}
