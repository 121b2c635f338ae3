// Which words open a call.
ghost use Rattle.std.specs.Prelude.{◌≡◌};
ghost use Rattle.vtl_format.specs.Calls.{is_call};

use read_parts::WordGroup;
use vtl_grammar::CallForm;
use vtl_lexer::TokenKind;

// Whether it is the word of a function, of another call, of a join or of `cast`.
pub(crate) fn is_call(kind: &TokenKind) -> bool
    ensures { result ≡ is_call kind.now }
{
    CallForm::spelled_by(kind).is_some()
}
