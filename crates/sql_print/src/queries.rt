// The tokens of queries.
ghost use Rattle.std.specs.Prelude.{◌≡◌, ◌++◌, map, option_map, OnOk};
ghost use Rattle.grammar_forms.specs.Written.{behind, run};
ghost use Rattle.sql_lexer.specs.declared.token.Word.TheVariants as w;
ghost use Rattle.sql_tree.specs.Printing.{behind_word, commas, maybe_written, two_words, written, written_item, written_join, written_query, written_select, written_sources, written_value};
ghost use Rattle.sql_tree.specs.View.{expr_tree, item_tree, join_tree, query_tree, select_tree, value_tree};

use crate::expressions::expression;
use crate::parts::{name, source};
use crate::windows::{columns_after, window};
use crate::word_groups::join_word;
use crate::writing::{Printed, Written, all, parted, two_words, word};
use sql_lexer::{TokenKind, Word};
use sql_tree::{Item, ItemValue, Join, Query, Select, Source, SqlExpr};

fn value(out: &mut Vec<TokenKind>, value: &ItemValue) -> Printed
    ensures { OnOk result (out.new.items ≡ out.old.items ++ written_value (value_tree value.now)) }
{
    match value {
        ItemValue::Expr(e) => expression(out, e),
        ItemValue::Window(over) => window(out, over),
    }
}

impl Written for Item {
    ghost use Rattle.sql_tree.specs.Printing.{written_item};
    ghost use Rattle.sql_tree.specs.View.{item_tree};

    ghost tokens = { λ i. written_item (item_tree i) };

    fn write(&self, out: &mut Vec<TokenKind>) -> Printed {
        value(out, &self.value)?;
        word(out, Word::As)?;
        name(out, &self.name)
    }
}

impl Written for Join {
    ghost use Rattle.sql_tree.specs.Printing.{written_join};
    ghost use Rattle.sql_tree.specs.View.{join_tree};

    ghost tokens = { λ j. written_join (join_tree j) };

    fn write(&self, out: &mut Vec<TokenKind>) -> Printed {
        match self {
            Join::On {
                kind,
                source: from,
                condition,
            } => {
                two_words(out, join_word(*kind), Word::Join)?;
                source(out, from)?;
                word(out, Word::On)?;
                expression(out, condition)
            }
            Join::Cross(from) => {
                two_words(out, Word::Cross, Word::Join)?;
                source(out, from)
            }
        }
    }
}

// A condition after its word, where there is one.
fn condition(out: &mut Vec<TokenKind>, mark: Word, condition: &Option<SqlExpr>) -> Printed
    ensures { OnOk result (out.new.items ≡ out.old.items ++ maybe_written (behind_word mark written) (option_map expr_tree condition.now)) }
{
    match condition {
        None => Ok(()),
        Some(e) => {
            word(out, mark)?;
            expression(out, e)
        }
    }
}

fn items(out: &mut Vec<TokenKind>, items: &[Item]) -> Printed
    ensures { OnOk result (out.new.items ≡ out.old.items ++ commas written_item (map item_tree items.now)) }
{
    parted(out, Word::Comma, items)
}

fn all_joins(out: &mut Vec<TokenKind>, joins: &[Join]) -> Printed
    ensures { OnOk result (out.new.items ≡ out.old.items ++ run written_join (map join_tree joins.now)) }
{
    all(out, joins)
}

fn sources(out: &mut Vec<TokenKind>, from: &Source, joins: &[Join]) -> Printed
    ensures { OnOk result (out.new.items ≡ out.old.items ++ written_sources from.now (map join_tree joins.now)) }
{
    source(out, from)?;
    all_joins(out, joins)
}

impl Written for Select {
    ghost use Rattle.sql_tree.specs.Printing.{written_select};
    ghost use Rattle.sql_tree.specs.View.{select_tree};

    ghost tokens = { λ s. written_select (select_tree s) };

    fn write(&self, out: &mut Vec<TokenKind>) -> Printed {
        word(out, Word::Select)?;
        items(out, self.items.as_slice())?;
        word(out, Word::From)?;
        sources(out, &self.from, self.joins.as_slice())?;
        condition(out, Word::Where, &self.condition)?;
        columns_after(out, Word::Group, Word::By, self.group.as_slice())?;
        condition(out, Word::Having, &self.having)
    }
}

pub(crate) fn query(out: &mut Vec<TokenKind>, query: &Query) -> Printed
    ensures { OnOk result (out.new.items ≡ out.old.items ++ written_query (query_tree query.now)) }
{
    let Some((first, rest)) = query.selects.as_slice().split_first() else {
        return Ok(());
    };
    first.write(out)?;
    more_selects(out, rest)
}

// The selects, each after UNION ALL.
fn more_selects(out: &mut Vec<TokenKind>, selects: &[Select]) -> Printed
    ensures { OnOk result (out.new.items ≡ out.old.items ++ behind (two_words w.Union w.All) written_select (map select_tree selects.now)) }
{
    for select in selects {
        two_words(out, Word::Union, Word::All)?;
        select.write(out)?;
    }
    Ok(())
}
