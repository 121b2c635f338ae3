// Laws of texts that are written token by token.
ghost use Rattle.std.specs.Prelude.{◌≡◌, ℕ, List, Option, None, false, IsUtf8};
ghost use Rattle.std.specs.List.{AllByRecursion};
ghost use Rattle.vtl_lists.specs.Runs.{begins_with};
ghost use Rattle.vtl_lexer.specs.Parts.{HasParts};
ghost use Rattle.vtl_lexer.specs.Pieces.{IsCutAt, IsWritable, Piece, Stands, joins, pieces_of};
ghost use Rattle.vtl_lexer.specs.Spelling.{Spells};
ghost use Rattle.vtl_lexer.specs.Tokens.{IsToken};
ghost use Rattle.vtl_lexer.specs.declared.parts.Part.{Part};
ghost use Rattle.vtl_lexer.specs.declared.token.TokenKind.{TokenKind};

/// A text that is written from tokens and comments has these and no others; and a token is one before any byte that does
/// not go on it.
pub fn written_pieces_are_read()
    ensures read { (text : List ℕ) (pieces : List Piece) → Stands text pieces → (parts : List Part) × HasParts text parts None × (pieces_of text parts ≡ pieces) }
    ensures alone { (kind : TokenKind) (bytes rest : List ℕ) → Spells kind bytes → begins_with (joins kind) rest ≡ false → IsToken kind bytes rest }
{}

/// The tokens and comments of a text can be written again, and the text may be cut where they start and end.
pub fn pieces_can_be_written()
    ensures again { (text : List ℕ) (parts : List Part) (bad : Option ℕ) → HasParts text parts bad → AllByRecursion IsWritable (pieces_of text parts) }
    ensures cut { (text : List ℕ) (parts : List Part) (bad : Option ℕ) → IsUtf8 text → HasParts text parts bad → AllByRecursion (IsCutAt text) parts }
{}
