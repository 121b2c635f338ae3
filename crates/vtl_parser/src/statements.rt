// Statements.
ghost use Rattle.std.specs.Prelude.{Some, map};
ghost use Rattle.vtl_grammar.specs.Faults.{kinds};
ghost use Rattle.vtl_grammar.specs.ReadStatements.{assignment_read, datapoint_read, hierarchical_read, script_read, statement_read, value_read};
ghost use Rattle.read_parts.specs.Fronts.{ReadsBy};
ghost use Rattle.read_expressions.specs.Reads.{box_tree};
ghost use Rattle.vtl_syntax.specs.View.{statement_tree};

use crate::heads::ruleset_head;
use crate::rules::rules_between;
use read_expressions::whole_expression;
use read_parts::{Front, Unread, after_keyword, after_sign, comp, comps, name, word};
use std::alloc::Global;
use vtl_lexer::{Keyword, Sign, Token};
use vtl_syntax::{Expr, Statement};
use vtl_text::List;

// An expression, with a semicolon after it.
#[tactic(auto, unfolding(vtl_grammar::specs::ReadStatements::value_read))]
fn value(alloc: Global, tokens: &[Token]) -> Result<Front<'_, Box<Expr>>, Unread>
    ensures { ReadsBy box_tree (value_read (kinds tokens.now)) result }
{
    let Front { part, rest } = whole_expression(alloc, tokens)?;
    let rest = after_sign(rest, Sign::Semicolon).ok_or(Unread::Absent)?;
    Ok(Front { part, rest })
}

// `name := value;` or `name <- value;`
#[tactic(auto, unfolding(vtl_grammar::specs::ReadStatements::assignment_read))]
fn assignment(alloc: Global, tokens: &[Token]) -> Result<Front<'_, Statement>, Unread>
    ensures { ReadsBy statement_tree (assignment_read (kinds tokens.now)) result }
{
    let named = name(tokens)?;
    let kind = word(named.rest).ok_or(Unread::Absent)?;
    let Front { part, rest } = value(alloc, kind.rest)?;
    Ok(Front {
        part: Statement::Assignment {
            name: named.part,
            kind: kind.part,
            value: Box::into_inner(part),
        },
        rest,
    })
}

// What follows `define datapoint`.
#[tactic(auto, unfolding(vtl_grammar::specs::ReadStatements::datapoint_read, vtl_grammar::specs::ReadStatements::point_rules))]
fn datapoint(alloc: Global, tokens: &[Token]) -> Result<Front<'_, Statement>, Unread>
    ensures { ReadsBy statement_tree (datapoint_read (kinds tokens.now)) result }
{
    let named = ruleset_head(tokens)?;
    let variables = comps(alloc, named.rest)?;
    let Front { part, rest } = rules_between(alloc, Keyword::Datapoint, variables.rest)?;
    Ok(Front {
        part: Statement::Datapoint {
            name: named.part,
            variables: variables.part,
            rules: part.0,
            last_semicolon: part.1,
        },
        rest,
    })
}

// What follows `define hierarchical`.
#[tactic(auto, unfolding(vtl_grammar::specs::ReadStatements::hierarchical_read, vtl_grammar::specs::ReadStatements::hier_rules))]
fn hierarchical(alloc: Global, tokens: &[Token]) -> Result<Front<'_, Statement>, Unread>
    ensures { ReadsBy statement_tree (hierarchical_read (kinds tokens.now)) result }
{
    let named = ruleset_head(tokens)?;
    let after = after_keyword(named.rest, Keyword::Rule).ok_or(Unread::Absent)?;
    let item = comp(after)?;
    let Front { part, rest } = rules_between(alloc, Keyword::Hierarchical, item.rest)?;
    Ok(Front {
        part: Statement::Hierarchical {
            name: named.part,
            item: item.part,
            rules: part.0,
            last_semicolon: part.1,
        },
        rest,
    })
}

// One statement: what `define` begins, or an assignment.
#[tactic(auto, unfolding(vtl_grammar::specs::ReadStatements::statement_read))]
fn statement(alloc: Global, tokens: &[Token]) -> Result<Front<'_, Statement>, Unread>
    ensures { ReadsBy statement_tree (statement_read (kinds tokens.now)) result }
{
    let Some(after) = after_keyword(tokens, Keyword::Define) else {
        return assignment(alloc, tokens);
    };
    if let Some(after) = after_keyword(after, Keyword::Datapoint) {
        return datapoint(alloc, after);
    }
    let after = after_keyword(after, Keyword::Hierarchical).ok_or(Unread::Absent)?;
    hierarchical(alloc, after)
}

/// As many statements as there are at the front. It fails only if memory runs out.
pub fn statements(alloc: Global, tokens: &[Token]) -> Result<Front<'_, List<Statement>>, Unread>
    ensures { ReadsBy (map statement_tree) (Some (script_read (kinds tokens.now))) result }
{
    let mut found = Vec::new(alloc);
    let mut rest = tokens;
    for _ in tokens {
        match statement(alloc, rest) {
            Ok(next) => {
                found.push(next.part)?;
                rest = next.rest;
            }
            Err(Unread::Absent) => break,
            Err(Unread::OutOfMemory) => return Err(Unread::OutOfMemory),
        }
    }
    Ok(Front {
        part: List::of(found),
        rest,
    })
}
