// What is written as tokens, and lists of such things.
ghost use Rattle.std.specs.Prelude.{◌≡◌, ◌++◌, ◌∷◌, [], map, OnOk};
ghost use Rattle.grammar_forms.specs.Written.{behind, between, run};
ghost use Rattle.sql_lexer.specs.declared.token.TokenKind.TheVariants as t;

use sql_lexer::{TokenKind, Word};
use std::alloc::AllocError;

pub(crate) type Printed = Result<(), AllocError>;

// A part that stands in lists.
pub(crate) trait Written {
    ghost use Rattle.std.specs.Prelude.{◌≡◌, ◌++◌, OnOk};
    ghost use Rattle.sql_tree.specs.Grammar.{Tokens};

    // What is written for it.
    ghost tokens: { Self → Tokens };

    fn write(&self, out: &mut Vec<TokenKind>) -> Printed
        ensures { OnOk result (out.new.items ≡ out.old.items ++ tokens self.now) };
}

pub(crate) fn word(out: &mut Vec<TokenKind>, word: Word) -> Printed
    ensures { OnOk result (out.new.items ≡ out.old.items ++ t.Word word ∷ []) }
{
    out.push(TokenKind::Word(word))?;
    Ok(())
}

pub(crate) fn two_words(out: &mut Vec<TokenKind>, first: Word, second: Word) -> Printed
    ensures { OnOk result (out.new.items ≡ out.old.items ++ t.Word first ∷ t.Word second ∷ []) }
{
    word(out, first)?;
    word(out, second)
}

// The items, with a word between any two.
pub(crate) fn parted<T: Written>(out: &mut Vec<TokenKind>, mark: Word, items: &[T]) -> Printed
    ensures { OnOk result (out.new.items ≡ out.old.items ++ between (t.Word mark ∷ []) T.tokens items.now) }
{
    let Some((first, rest)) = items.split_first() else {
        return Ok(());
    };
    first.write(out)?;
    behind_marks(out, mark, rest)
}

// The items, each after a word.
fn behind_marks<T: Written>(out: &mut Vec<TokenKind>, mark: Word, items: &[T]) -> Printed
    ensures { OnOk result (out.new.items ≡ out.old.items ++ behind (t.Word mark ∷ []) T.tokens items.now) }
{
    for item in items {
        word(out, mark)?;
        item.write(out)?;
    }
    Ok(())
}

// The items, one after the other.
pub(crate) fn all<T: Written>(out: &mut Vec<TokenKind>, items: &[T]) -> Printed
    ensures { OnOk result (out.new.items ≡ out.old.items ++ run T.tokens items.now) }
{
    for item in items {
        item.write(out)?;
    }
    Ok(())
}
