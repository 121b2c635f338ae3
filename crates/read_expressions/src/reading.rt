// Expressions at any budget.
//
// Depth is enforced while reading: a reader has a budget, and one unit of it goes with each level, so no input makes
// it go deeper.
ghost use Rattle.vtl_grammar.specs.Faults.{kinds};
ghost use Rattle.vtl_grammar.specs.ReadExpressions.{read};
ghost use Rattle.vtl_grammar.specs.ReadStatements.{whole_exp};
ghost use Rattle.read_expressions.specs.Reads.{GetsBy, box_tree};
ghost use Rattle.read_parts.specs.Fronts.{ReadsBy};

use crate::grammar::Grammar;
use crate::reads::Read;
use read_parts::{Front, Unread};
use std::alloc::Global;
use vtl_grammar::{DEPTH_LIMIT, Level};
use vtl_lexer::Token;
use vtl_syntax::Expr;

// The expression at the front that may stand at the level, of at most that depth.
fn read(
    alloc: Global,
    budget: usize,
    level: Level,
    tokens: &[Token],
) -> Result<Read<'_, Box<Expr>>, Unread>
    ensures { GetsBy box_tree (read budget level (kinds tokens.now)) result }
{
    if budget == 0 {
        return Err(Unread::Absent);
    }
    let inner = budget - 1;
    let grammar = Grammar::new(
        alloc,
        inner,
        move |level, tokens|
            ensures { GetsBy box_tree (read inner level (kinds tokens.now)) result }
        { read(alloc, inner, level, tokens) },
    );
    grammar.level(level, tokens)
}

/// The expression at the front of the tokens, the longest that is no deeper than a statement may be; in its box, since
/// a tree that is moved by value is costly to prove.
#[tactic(auto, unfolding(vtl_grammar::specs::ReadStatements::whole_exp))]
pub fn whole_expression(alloc: Global, tokens: &[Token]) -> Result<Front<'_, Box<Expr>>, Unread>
    ensures { ReadsBy box_tree (whole_exp (kinds tokens.now)) result }
{
    let Read { tree, rest, .. } = read(alloc, DEPTH_LIMIT, Level::Expression, tokens)?;
    Ok(Front { part: tree, rest })
}
