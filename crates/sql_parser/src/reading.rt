// Expressions of any depth up to the limit.
ghost use Rattle.std.specs.Prelude.{◌≤◌};
ghost use Rattle.sql_parser_parts.specs.Answers.{AnswersBy, kinds};
ghost use Rattle.sql_parser.specs.Depths.{box_tree, deep_view, place_of};
ghost use Rattle.sql_tree.specs.Grammar.{expr, expr_at, most_levels};
ghost use Rattle.sql_tree.specs.View.{expr_tree};

use crate::grammar::{Grammar, Node, Place};
use sql_parser_parts::{Front, Tokens, Unread};
use sql_tree::SqlExpr;
use std::alloc::Global;

// The expression at the front, of at most that depth.
fn read<'t>(
    alloc: Global,
    budget: usize,
    place: Place,
    tokens: Tokens<'t>,
) -> Result<Node<'t>, Unread>
    requires { budget ≤ most_levels }
    ensures { AnswersBy (deep_view box_tree) ((expr_at budget (place_of place)).reads (kinds tokens.now)) result }
{
    if budget == 0 {
        return Err(Unread::Absent);
    }
    let inner = budget - 1;
    let grammar = Grammar::new(
        alloc,
        inner,
        move |place, tokens|
            requires { inner ≤ most_levels }
            ensures { AnswersBy (deep_view box_tree) ((expr_at inner (place_of place)).reads (kinds tokens.now)) result }
        { read(alloc, inner, place, tokens) },
    );
    grammar.at(place, tokens)
}

const DEPTH_LIMIT: usize = 512;

// The expression at the front.
#[tactic(auto, unfolding(sql_tree::specs::Grammar::expr))]
pub(crate) fn expression<'t>(
    alloc: Global,
    tokens: Tokens<'t>,
) -> Result<Front<'t, SqlExpr>, Unread>
    ensures { AnswersBy expr_tree (expr.reads (kinds tokens.now)) result }
{
    let read = read(alloc, DEPTH_LIMIT, Place::Whole, tokens)?;
    let found = read.part;
    Ok(Front {
        part: Box::into_inner(found.tree),
        rest: read.rest,
    })
}
