// The tokens of statements and scripts.
ghost use Rattle.std.specs.Prelude.{◌≡◌, ◌++◌, map, IfOk, OnOk};
ghost use Rattle.grammar_forms.specs.Written.{behind, run};
ghost use Rattle.sql_lexer.specs.declared.token.Word.TheVariants as w;
ghost use Rattle.sql_tree.specs.Printing.{bracketed, commas, items_after, just, two_words, written_name, written_script, written_statement, written_text};
ghost use Rattle.sql_print.specs.Tails.{input_key};
ghost use Rattle.sql_tree.specs.Trees.{create, export, input, setting};
ghost use Rattle.sql_tree.specs.View.{query_tree, script_tree, statement_tree};

use crate::parts::{int, maybe_not_null, name, names, text};
use crate::queries::query;
use crate::word_groups::{kind_word, rounding_word};
use crate::writing::{Printed, Written, all, parted, two_words, word};
use sql_lexer::{TokenKind, Word};
use sql_tree::{InputColumn, SqlCreate, SqlExport, SqlInput, SqlScript, Statement};
use std::alloc::{AllocError, Global};
use vtl_text::Txt;

// Texts in brackets after CODES, where there are any.
fn codes(out: &mut Vec<TokenKind>, items: &[Txt]) -> Printed
    ensures { OnOk result (out.new.items ≡ out.old.items ++ items_after (just w.Codes) (λ xs. bracketed (commas written_text xs)) items.now) }
{
    let Some((first, rest)) = items.split_first() else {
        return Ok(());
    };
    two_words(out, Word::Codes, Word::Open)?;
    text(out, first)?;
    more_texts(out, rest)?;
    word(out, Word::Close)
}

// The texts, each after a comma.
fn more_texts(out: &mut Vec<TokenKind>, items: &[Txt]) -> Printed
    ensures { OnOk result (out.new.items ≡ out.old.items ++ behind (just w.Comma) written_text items.now) }
{
    for item in items {
        word(out, Word::Comma)?;
        text(out, item)?;
    }
    Ok(())
}

impl Written for InputColumn {
    ghost use Rattle.sql_tree.specs.Printing.{written_input_column};

    ghost tokens = { written_input_column };

    fn write(&self, out: &mut Vec<TokenKind>) -> Printed {
        name(out, &self.name)?;
        word(out, kind_word(self.kind))?;
        maybe_not_null(out, self.not_null)?;
        codes(out, self.codes.as_slice())
    }
}

fn input(out: &mut Vec<TokenKind>, s: &SqlInput) -> Printed
    ensures { OnOk result (out.new.items ≡ out.old.items ++ written_statement (input s.now)) }
{
    word(out, Word::Input)?;
    name(out, &s.name)?;
    word(out, Word::Open)?;
    parted(out, Word::Comma, s.columns.as_slice())?;
    word(out, Word::Close)?;
    key(out, s.key.as_slice())
}

fn key(out: &mut Vec<TokenKind>, items: &[Txt]) -> Printed
    ensures { OnOk result (out.new.items ≡ out.old.items ++ input_key items.now) }
{
    two_words(out, Word::Key, Word::Open)?;
    names(out, items)?;
    two_words(out, Word::Close, Word::Semicolon)
}

fn create(out: &mut Vec<TokenKind>, s: &SqlCreate) -> Printed
    ensures { OnOk result (out.new.items ≡ out.old.items ++ written_statement (create s.now.name (query_tree s.now.query))) }
{
    two_words(out, Word::Create, Word::Table)?;
    name(out, &s.name)?;
    word(out, Word::As)?;
    query(out, &s.query)?;
    word(out, Word::Semicolon)
}

fn order(out: &mut Vec<TokenKind>, items: &[Txt]) -> Printed
    ensures { OnOk result (out.new.items ≡ out.old.items ++ items_after (two_words w.Order w.By) (commas written_name) items.now) }
{
    if items.is_empty() {
        return Ok(());
    }
    two_words(out, Word::Order, Word::By)?;
    names(out, items)
}

fn export(out: &mut Vec<TokenKind>, s: &SqlExport) -> Printed
    ensures { OnOk result (out.new.items ≡ out.old.items ++ written_statement (export s.now)) }
{
    word(out, Word::Export)?;
    name(out, &s.name)?;
    order(out, s.order.as_slice())?;
    word(out, Word::Semicolon)
}

impl Written for Statement {
    ghost use Rattle.sql_tree.specs.Printing.{written_statement};
    ghost use Rattle.sql_tree.specs.View.{statement_tree};

    ghost tokens = { λ s. written_statement (statement_tree s) };

    fn write(&self, out: &mut Vec<TokenKind>) -> Printed {
        match self {
            Statement::Input(s) => input(out, s),
            Statement::Create(s) => create(out, s),
            Statement::Export(s) => export(out, s),
        }
    }
}

fn setting(out: &mut Vec<TokenKind>, s: &SqlScript) -> Printed
    ensures { OnOk result (out.new.items ≡ out.old.items ++ written_statement (setting s.now.scale s.now.rounding)) }
{
    two_words(out, Word::Set, Word::Scale)?;
    int(out, &s.scale)?;
    two_words(out, Word::Rounding, rounding_word(s.rounding))?;
    word(out, Word::Semicolon)
}

fn statements(out: &mut Vec<TokenKind>, items: &[Statement]) -> Printed
    ensures { OnOk result (out.new.items ≡ out.old.items ++ run written_statement (map statement_tree items.now)) }
{
    all(out, items)
}

// The tokens of the script.
pub(crate) fn tokens_of(alloc: Global, s: &SqlScript) -> Result<Vec<TokenKind>, AllocError>
    ensures { IfOk result (λ tokens. tokens.items ≡ written_script (script_tree s.now)) }
{
    let mut out = Vec::new(alloc);
    setting(&mut out, s)?;
    statements(&mut out, s.statements.as_slice())?;
    Ok(out)
}
