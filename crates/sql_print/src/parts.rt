// Columns, sources and constants.
ghost use Rattle.std.specs.Prelude.{◌≡◌, ◌++◌, ◌∷◌, [], OnOk};
ghost use Rattle.grammar_forms.specs.Written.{behind};
ghost use Rattle.sql_lexer.specs.declared.token.TokenKind.TheVariants as t;
ghost use Rattle.sql_lexer.specs.declared.token.Word.TheVariants as w;
ghost use Rattle.sql_tree.specs.Printing.{bracketed, commas, items_after, just, minus_word, not_null_words, not_word, written_constant, written_equalities, written_given, written_literal, written_name, written_number, written_series, written_source, written_text};

use crate::word_groups::span_word;
use crate::writing::{Printed, Written, parted, two_words, word};
use sql_lexer::{TokenKind, Word};
use sql_tree::{Column, Constant, Equality, Literal, Numeral, Series, Source};
use vtl_text::Txt;

pub(crate) fn name(out: &mut Vec<TokenKind>, name: &Txt) -> Printed
    ensures { OnOk result (out.new.items ≡ out.old.items ++ written_name name.now) }
{
    out.push(TokenKind::Name(name.share()?))?;
    Ok(())
}

pub(crate) fn text(out: &mut Vec<TokenKind>, text: &Txt) -> Printed
    ensures { OnOk result (out.new.items ≡ out.old.items ++ written_text text.now) }
{
    out.push(TokenKind::Text(text.share()?))?;
    Ok(())
}

pub(crate) fn int(out: &mut Vec<TokenKind>, digits: &Txt) -> Printed
    ensures { OnOk result (out.new.items ≡ out.old.items ++ t.Int digits.now ∷ []) }
{
    out.push(TokenKind::Int(digits.share()?))?;
    Ok(())
}

pub(crate) fn maybe_not(out: &mut Vec<TokenKind>, negated: bool) -> Printed
    ensures { OnOk result (out.new.items ≡ out.old.items ++ not_word negated) }
{
    if negated {
        word(out, Word::Not)?;
    }
    Ok(())
}

pub(crate) fn maybe_not_null(out: &mut Vec<TokenKind>, not_null: bool) -> Printed
    ensures { OnOk result (out.new.items ≡ out.old.items ++ not_null_words not_null) }
{
    if not_null {
        two_words(out, Word::Not, Word::Null)?;
    }
    Ok(())
}

fn maybe_minus(out: &mut Vec<TokenKind>, negative: bool) -> Printed
    ensures { OnOk result (out.new.items ≡ out.old.items ++ minus_word negative) }
{
    if negative {
        word(out, Word::Minus)?;
    }
    Ok(())
}

impl Written for Column {
    ghost use Rattle.sql_tree.specs.Printing.{written_column};

    ghost tokens = { written_column };

    fn write(&self, out: &mut Vec<TokenKind>) -> Printed {
        name(out, &self.source)?;
        word(out, Word::Dot)?;
        name(out, &self.name)
    }
}

// The names, with commas between them.
pub(crate) fn names(out: &mut Vec<TokenKind>, items: &[Txt]) -> Printed
    ensures { OnOk result (out.new.items ≡ out.old.items ++ commas written_name items.now) }
{
    let Some((first, rest)) = items.split_first() else {
        return Ok(());
    };
    name(out, first)?;
    more_names(out, rest)
}

// The names, each after a comma.
fn more_names(out: &mut Vec<TokenKind>, items: &[Txt]) -> Printed
    ensures { OnOk result (out.new.items ≡ out.old.items ++ behind (just w.Comma) written_name items.now) }
{
    for item in items {
        word(out, Word::Comma)?;
        name(out, item)?;
    }
    Ok(())
}

// Names in brackets after BY, where there are any.
fn names_after_by(out: &mut Vec<TokenKind>, items: &[Txt]) -> Printed
    ensures { OnOk result (out.new.items ≡ out.old.items ++ items_after (just w.By) (λ xs. bracketed (commas written_name xs)) items.now) }
{
    if items.is_empty() {
        return Ok(());
    }
    two_words(out, Word::By, Word::Open)?;
    names(out, items)?;
    word(out, Word::Close)
}

fn series(out: &mut Vec<TokenKind>, series: &Series) -> Printed
    ensures { OnOk result (out.new.items ≡ out.old.items ++ written_series series.now) }
{
    word(out, Word::On)?;
    name(out, &series.on)?;
    names_after_by(out, series.by.as_slice())?;
    word(out, span_word(series.span))
}

fn given(out: &mut Vec<TokenKind>, source: &Source) -> Printed
    ensures { OnOk result (out.new.items ≡ out.old.items ++ written_given source.now.table source.now.series) }
{
    match &source.series {
        None => name(out, &source.table),
        Some(wanted) => {
            word(out, Word::Series)?;
            name(out, &source.table)?;
            series(out, wanted)
        }
    }
}

pub(crate) fn source(out: &mut Vec<TokenKind>, source: &Source) -> Printed
    ensures { OnOk result (out.new.items ≡ out.old.items ++ written_source source.now) }
{
    given(out, source)?;
    word(out, Word::As)?;
    name(out, &source.alias)
}

impl Written for Equality {
    ghost use Rattle.sql_tree.specs.Printing.{written_equality};

    ghost tokens = { written_equality };

    fn write(&self, out: &mut Vec<TokenKind>) -> Printed {
        self.left.write(out)?;
        word(out, Word::Equal)?;
        self.right.write(out)
    }
}

pub(crate) fn equalities(out: &mut Vec<TokenKind>, items: &[Equality]) -> Printed
    ensures { OnOk result (out.new.items ≡ out.old.items ++ written_equalities items.now) }
{
    if items.is_empty() {
        return Ok(());
    }
    word(out, Word::Where)?;
    parted(out, Word::And, items)
}

fn number(out: &mut Vec<TokenKind>, number: &Numeral) -> Printed
    ensures { OnOk result (out.new.items ≡ out.old.items ++ written_number number.now) }
{
    match number {
        Numeral::Int(digits) => int(out, digits),
        Numeral::Dec(digits) => {
            out.push(TokenKind::Dec(digits.share()?))?;
            Ok(())
        }
    }
}

fn text_behind(out: &mut Vec<TokenKind>, mark: Word, value: &Txt) -> Printed
    ensures { OnOk result (out.new.items ≡ out.old.items ++ t.Word mark ∷ t.Text value.now ∷ []) }
{
    word(out, mark)?;
    text(out, value)
}

pub(crate) fn constant(out: &mut Vec<TokenKind>, constant: &Constant) -> Printed
    ensures { OnOk result (out.new.items ≡ out.old.items ++ written_constant constant.now) }
{
    match constant {
        Constant::Number(value) => number(out, value),
        Constant::Text(value) => text(out, value),
        Constant::True => word(out, Word::True),
        Constant::False => word(out, Word::False),
        Constant::Null => word(out, Word::Null),
        Constant::Date(value) => text_behind(out, Word::Date, value),
        Constant::Period(value) => text_behind(out, Word::Period, value),
    }
}

impl Written for Literal {
    ghost use Rattle.sql_tree.specs.Printing.{written_literal};

    ghost tokens = { written_literal };

    fn write(&self, out: &mut Vec<TokenKind>) -> Printed {
        match self {
            Literal::Number {
                negative,
                number: value,
            } => {
                maybe_minus(out, *negative)?;
                number(out, value)
            }
            Literal::Text(value) => text(out, value),
            Literal::True => word(out, Word::True),
            Literal::False => word(out, Word::False),
            Literal::Date(value) => text_behind(out, Word::Date, value),
            Literal::Period(value) => text_behind(out, Word::Period, value),
        }
    }
}
