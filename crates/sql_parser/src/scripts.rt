// Scripts: SET, and the statements after it.
ghost use Rattle.std.specs.Prelude.{Some, length};
ghost use Rattle.grammar_forms.specs.Scripts.{script_reads};
ghost use Rattle.sql_parser_parts.specs.Answers.{AnswersBy, item_views, kinds};
ghost use Rattle.sql_parser.specs.Parsed.{AnswersScript};
ghost use Rattle.sql_tree.specs.Grammar.{statement_at};
ghost use Rattle.sql_tree.specs.View.{statement_tree};

use crate::statements::{setting, statement};
use sql_parser_parts::{Front, Tokens, Unread, optional};
use sql_tree::{SqlScript, Statement};
use std::alloc::Global;
use vtl_text::List;

// As many statements as there are, up to the number.
fn statements<'t>(
    alloc: Global,
    most: usize,
    tokens: Tokens<'t>,
) -> Result<Front<'t, Vec<Statement>>, Unread>
    ensures { AnswersBy (item_views statement_tree) (Some (script_reads statement_at most 1 (kinds tokens.now))) result }
{
    let mut found = Vec::new(alloc);
    let mut rest = tokens;
    for _ in 0..most {
        let Some(next) = optional(statement(alloc, rest))? else {
            break;
        };
        found.push(next.part)?;
        rest = next.rest;
    }
    Ok(Front { part: found, rest })
}

// SET and as many statements as there are after it.
#[tactic(auto, using(crate::proofs::Told::no_script))]
pub(crate) fn script<'t>(alloc: Global, tokens: Tokens<'t>) -> Result<Front<'t, SqlScript>, Unread>
    ensures { AnswersScript (script_reads statement_at (length (kinds tokens.now)) 0 (kinds tokens.now)) (kinds tokens.now) result }
{
    let setting = setting(tokens)?;
    let (scale, rounding) = setting.part;
    // Each statement has a token.
    let most = tokens.len().saturating_sub(1);
    let statements = statements(alloc, most, setting.rest)?;
    Ok(Front {
        part: SqlScript {
            scale,
            rounding,
            statements: List::of(statements.part),
        },
        rest: statements.rest,
    })
}
