// Queries.
ghost use Rattle.grammar_forms.specs.Forms.{after, maybe_after, seq, «as»};
ghost use Rattle.sql_lexer.specs.declared.token.Word.TheVariants as word;
ghost use Rattle.sql_parser_parts.specs.Answers.{Answers, AnswersBy, item_views, kinds};
ghost use Rattle.sql_parser.specs.Parts.{body_view, group_view, joins_view, limits_view, option_view};
ghost use Rattle.sql_tree.specs.Grammar.{columns, expr, item, items_after, join_kinds_table, join_of, key, limits, name, of_table, query, select, source, sources, two_keys, value_of};
ghost use Rattle.sql_tree.specs.Trees as tree;
ghost use Rattle.sql_tree.specs.View.{item_tree, join_tree, select_tree, value_tree};

use crate::reading::expression;
use sql_lexer::Word;
use sql_parser_parts::{
    Commas, Front, ListKind, Part, Tokens, Unread, both, bracketed_over, call_over, columns_after,
    key, listed, more, name, optional, source, two_keys, word,
};
use sql_tree::{Column, Item, ItemValue, Join, JoinKind, Select, Source, SqlExpr, Window};
use std::alloc::Global;
use vtl_text::{List, Txt};

// A window, or an expression
#[tactic(auto, unfolding(sql_tree::specs::Grammar::value_of))]
fn value(alloc: Global, tokens: Tokens<'_>) -> Result<Front<'_, ItemValue>, Unread>
    ensures { AnswersBy value_tree (value_of.reads (kinds tokens.now)) result }
{
    if let Some(call) = optional(call_over(tokens))? {
        let over = bracketed_over(alloc, call.rest)?;
        return Ok(Front {
            part: ItemValue::Window(Window {
                call: call.part,
                over: over.part,
            }),
            rest: over.rest,
        });
    }
    let expr = expression(alloc, tokens)?;
    Ok(Front {
        part: ItemValue::Expr(expr.part),
        rest: expr.rest,
    })
}

// A name after `AS`
fn name_after(tokens: Tokens<'_>) -> Result<Front<'_, Txt>, Unread>
    ensures { Answers ((after (key word.As) name).reads (kinds tokens.now)) result }
{
    name(key(tokens, Word::As)?)
}

// `value "AS" name`
#[tactic(auto, unfolding(sql_tree::specs::Grammar::item))]
fn item(alloc: Global, tokens: Tokens<'_>) -> Result<Front<'_, Item>, Unread>
    ensures { AnswersBy item_tree (item.reads (kinds tokens.now)) result }
{
    let value = value(alloc, tokens)?;
    let rest = value.rest;
    let named = both(value.part, name_after(rest))?;
    let (value, name) = named.part;
    Ok(Front {
        part: Item { value, name },
        rest: named.rest,
    })
}

struct ItemPart;

impl Part for ItemPart {
    ghost use Rattle.sql_tree.specs.Grammar.{item};
    ghost use Rattle.sql_tree.specs.Trees.{ItemTree};
    ghost use Rattle.sql_tree.specs.View.{item_tree};

    type Item = Item;

    ghost Tree = { ItemTree };

    ghost view = { item_tree };

    ghost reads = { item.reads };

    fn read(alloc: Global, tokens: Tokens<'_>) -> Result<Front<'_, Item>, Unread> {
        item(alloc, tokens)
    }
}

// A source after two words
fn source_after(
    alloc: Global,
    tokens: Tokens<'_>,
    first: Word,
    second: Word,
) -> Result<Front<'_, Source>, Unread>
    ensures { Answers ((after (two_keys first second) source).reads (kinds tokens.now)) result }
{
    source(alloc, two_keys(tokens, first, second)?)
}

// A join with a condition
fn join_on(alloc: Global, tokens: Tokens<'_>) -> Result<Front<'_, Join>, Unread>
    ensures { AnswersBy join_tree ((«as» (λ p. tree.on p.0 p.1.0 p.1.1) (seq (of_table join_kinds_table) (seq (after (key word.Join) source) (after (key word.On) expr)))).reads (kinds tokens.now)) result }
{
    let table = [
        (Word::Inner, JoinKind::Inner),
        (Word::Left, JoinKind::Left),
        (Word::Full, JoinKind::Full),
    ];
    let kind = word(tokens, &table).ok_or(Unread::Absent)?;
    let source = source(alloc, key(kind.rest, Word::Join)?)?;
    let condition = expression(alloc, key(source.rest, Word::On)?)?;
    Ok(Front {
        part: Join::On {
            kind: kind.part,
            source: source.part,
            condition: condition.part,
        },
        rest: condition.rest,
    })
}

// A further source
#[tactic(auto, unfolding(sql_tree::specs::Grammar::join_of))]
fn join(alloc: Global, tokens: Tokens<'_>) -> Result<Front<'_, Join>, Unread>
    ensures { AnswersBy join_tree (join_of.reads (kinds tokens.now)) result }
{
    if let Some(join) = optional(join_on(alloc, tokens))? {
        return Ok(join);
    }
    let source = source_after(alloc, tokens, Word::Cross, Word::Join)?;
    Ok(Front {
        part: Join::Cross(source.part),
        rest: source.rest,
    })
}

struct JoinList;

impl ListKind for JoinList {
    ghost use Rattle.sql_tree.specs.Grammar.{join_of};
    ghost use Rattle.sql_tree.specs.Trees.{JoinTree};
    ghost use Rattle.sql_tree.specs.View.{join_tree};

    type Item = Join;

    ghost Tree = { JoinTree };

    ghost view = { join_tree };

    ghost first = { join_of.reads };

    ghost step = { join_of.reads };

    fn first(alloc: Global, tokens: Tokens<'_>) -> Result<Front<'_, Join>, Unread> {
        join(alloc, tokens)
    }

    fn step(alloc: Global, tokens: Tokens<'_>) -> Result<Front<'_, Join>, Unread> {
        join(alloc, tokens)
    }
}

// The first source, and the others
#[tactic(auto, using(crate::proofs::Joins::joins), unfolding(sql_tree::specs::Grammar::sources))]
fn sources(alloc: Global, tokens: Tokens<'_>) -> Result<Front<'_, (Source, Vec<Join>)>, Unread>
    ensures { AnswersBy joins_view (sources.reads (kinds tokens.now)) result }
{
    let source = source(alloc, tokens)?;
    let joins = more::<JoinList>(alloc, Vec::new(alloc), source.rest)?;
    Ok(Front {
        part: (source.part, joins.part),
        rest: joins.rest,
    })
}

// A condition after a word, if the word stands there
fn condition_after(
    alloc: Global,
    tokens: Tokens<'_>,
    mark: Word,
) -> Result<Front<'_, Option<SqlExpr>>, Unread>
    ensures { AnswersBy option_view ((maybe_after (key mark) expr).reads (kinds tokens.now)) result }
{
    let Ok(behind) = key(tokens, mark) else {
        return Ok(Front {
            part: None,
            rest: tokens,
        });
    };
    let condition = expression(alloc, behind)?;
    Ok(Front {
        part: Some(condition.part),
        rest: condition.rest,
    })
}

type GroupLimits = (Vec<Column>, Option<SqlExpr>);

// GROUP BY and HAVING
fn group_limits(alloc: Global, tokens: Tokens<'_>) -> Result<Front<'_, GroupLimits>, Unread>
    ensures { AnswersBy group_view ((seq (items_after (two_keys word.Group word.By) columns) (maybe_after (key word.Having) expr)).reads (kinds tokens.now)) result }
{
    let group = columns_after(alloc, tokens, Word::Group, Word::By)?;
    let having = condition_after(alloc, group.rest, Word::Having)?;
    Ok(Front {
        part: (group.part, having.part),
        rest: having.rest,
    })
}

type Limits = (Option<SqlExpr>, GroupLimits);

// WHERE, GROUP BY and HAVING
#[tactic(auto, unfolding(sql_tree::specs::Grammar::limits))]
fn limits(alloc: Global, tokens: Tokens<'_>) -> Result<Front<'_, Limits>, Unread>
    ensures { AnswersBy limits_view (limits.reads (kinds tokens.now)) result }
{
    let condition = condition_after(alloc, tokens, Word::Where)?;
    let rest = condition.rest;
    both(condition.part, group_limits(alloc, rest))
}

// What stands after the items
fn body(
    alloc: Global,
    tokens: Tokens<'_>,
) -> Result<Front<'_, ((Source, Vec<Join>), Limits)>, Unread>
    ensures { AnswersBy body_view ((seq (after (key word.From) sources) limits).reads (kinds tokens.now)) result }
{
    let sources = sources(alloc, key(tokens, Word::From)?)?;
    let rest = sources.rest;
    both(sources.part, limits(alloc, rest))
}

// A select
#[tactic(auto, unfolding(sql_tree::specs::Grammar::select))]
fn select(alloc: Global, tokens: Tokens<'_>) -> Result<Front<'_, Select>, Unread>
    ensures { AnswersBy select_tree (select.reads (kinds tokens.now)) result }
{
    let items = listed::<Commas<ItemPart>>(alloc, key(tokens, Word::Select)?)?;
    let rest = items.rest;
    let whole = both(items.part, body(alloc, rest))?;
    let (items, ((from, joins), (condition, (group, having)))) = whole.part;
    Ok(Front {
        part: Select {
            items: List::of(items),
            from,
            joins: List::of(joins),
            condition,
            group: List::of(group),
            having,
        },
        rest: whole.rest,
    })
}

struct SelectList;

impl ListKind for SelectList {
    ghost use Rattle.grammar_forms.specs.Forms.{after};
    ghost use Rattle.sql_lexer.specs.declared.token.Word.TheVariants.{All, Union};
    ghost use Rattle.sql_tree.specs.Grammar.{select, two_keys};
    ghost use Rattle.sql_tree.specs.Trees.{SelectTree};
    ghost use Rattle.sql_tree.specs.View.{select_tree};

    type Item = Select;

    ghost Tree = { SelectTree };

    ghost view = { select_tree };

    ghost first = { select.reads };

    ghost step = { (after (two_keys Union All) select).reads };

    fn first(alloc: Global, tokens: Tokens<'_>) -> Result<Front<'_, Select>, Unread> {
        select(alloc, tokens)
    }

    fn step(alloc: Global, tokens: Tokens<'_>) -> Result<Front<'_, Select>, Unread> {
        select(alloc, two_keys(tokens, Word::Union, Word::All)?)
    }
}

// `select { "UNION" "ALL" select }`
#[tactic(auto, unfolding(sql_tree::specs::Grammar::query))]
pub(crate) fn query(alloc: Global, tokens: Tokens<'_>) -> Result<Front<'_, Vec<Select>>, Unread>
    ensures { AnswersBy (item_views select_tree) (query.reads (kinds tokens.now)) result }
{
    listed::<SelectList>(alloc, tokens)
}
