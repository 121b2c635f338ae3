// Rules of datapoint rulesets.
ghost use Rattle.std.specs.Prelude.{◌≡◌, option_map};
ghost use Rattle.vtl_grammar.specs.Faults.{kinds};
ghost use Rattle.vtl_grammar.specs.ReadStatements.{holds_read, point_rule_read, rule_behind, when_part};
ghost use Rattle.read_parts.specs.Fronts.{ReadsBy, first_by};
ghost use Rattle.vtl_syntax.specs.View.{expr_tree, point_rule_tree};
ghost use Rattle.read_expressions.specs.Reads.{box_tree};

use crate::heads::rule_name;
use crate::rules::Rule;
use read_expressions::whole_expression;
use read_parts::{Front, Unread, after_keyword, error_part};
use std::alloc::Global;
use vtl_lexer::{Keyword, Token};
use vtl_syntax::{ErrorPart, Expr, PointRule};
use vtl_text::Txt;

// `when condition then`, if it stands there.
#[tactic(auto, unfolding(vtl_grammar::specs::ReadStatements::when_part))]
fn when_part(alloc: Global, tokens: &[Token]) -> Result<Front<'_, Option<Box<Expr>>>, Unread>
    ensures { ReadsBy (option_map box_tree) (when_part (kinds tokens.now)) result }
{
    let Some(after) = after_keyword(tokens, Keyword::When) else {
        return Ok(Front {
            part: None,
            rest: tokens,
        });
    };
    let condition = whole_expression(alloc, after)?;
    let rest = after_keyword(condition.rest, Keyword::Then).ok_or(Unread::Absent)?;
    Ok(Front {
        part: Some(condition.part),
        rest,
    })
}

// What has to hold, and its error.
#[tactic(auto, unfolding(vtl_grammar::specs::ReadStatements::holds_read))]
fn holds(alloc: Global, tokens: &[Token]) -> Result<Front<'_, (Box<Expr>, ErrorPart)>, Unread>
    ensures { ReadsBy (first_by box_tree) (holds_read (kinds tokens.now)) result }
{
    let value = whole_expression(alloc, tokens)?;
    let error = error_part(value.rest)?;
    Ok(Front {
        part: (value.part, error.part),
        rest: error.rest,
    })
}

// The rest of a rule whose name and condition were read.
#[tactic(auto, unfolding(vtl_grammar::specs::ReadStatements::rule_behind))]
fn rule_behind(
    alloc: Global,
    name: Option<Txt>,
    when: Option<Box<Expr>>,
    tokens: &[Token],
) -> Result<Front<'_, PointRule>, Unread>
    ensures { ReadsBy point_rule_tree (rule_behind name (option_map box_tree when) (kinds tokens.now)) result }
{
    let Front { part, rest } = holds(alloc, tokens)?;
    Ok(Front {
        part: PointRule {
            name,
            when: unboxed(when),
            holds: Box::into_inner(part.0),
            error: part.1,
        },
        rest,
    })
}

fn unboxed(when: Option<Box<Expr>>) -> Option<Expr>
    ensures { option_map expr_tree result ≡ option_map box_tree when }
{
    match when {
        Some(condition) => Some(Box::into_inner(condition)),
        None => None,
    }
}

// `name: when condition then holds error`
#[tactic(auto, unfolding(vtl_grammar::specs::ReadStatements::point_rule_read))]
fn point_rule(alloc: Global, tokens: &[Token]) -> Result<Front<'_, PointRule>, Unread>
    ensures { ReadsBy point_rule_tree (point_rule_read (kinds tokens.now)) result }
{
    let name = rule_name(tokens)?;
    let when = when_part(alloc, name.rest)?;
    rule_behind(alloc, name.part, when.part, when.rest)
}

impl Rule for PointRule {
    ghost use Rattle.vtl_grammar.specs.ReadStatements.{point_rule_read};
    ghost use Rattle.vtl_syntax.specs.Trees.{PointRuleTree};
    ghost use Rattle.vtl_syntax.specs.View.{point_rule_tree};

    ghost Tree = { PointRuleTree };

    ghost view = { point_rule_tree };

    ghost reads = { point_rule_read };

    fn read(alloc: Global, tokens: &[Token]) -> Result<Front<'_, PointRule>, Unread> {
        point_rule(alloc, tokens)
    }
}
