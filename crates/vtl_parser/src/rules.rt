// The rules of a ruleset.
ghost use Rattle.std.specs.Prelude.{◌≡◌, length, map};
ghost use Rattle.vtl_grammar.specs.Faults.{kinds};
ghost use Rattle.vtl_grammar.specs.ReadStatements.{ends_rules, more_rules, rules_between, rules_read};
ghost use Rattle.read_parts.specs.Fronts.{ReadsBy, first_by};

use crate::heads::{ruleset_end, ruleset_is};
use read_parts::{Front, Unread, after_keyword, after_sign};
use std::alloc::Global;
use vtl_lexer::{Keyword, Sign, Token};
use vtl_text::List;

/// A rule of a ruleset.
pub trait Rule: Drop {
    ghost use Rattle.vtl_grammar.specs.Faults.{kinds};
    ghost use Rattle.vtl_grammar.specs.Reading.{Reads};
    ghost use Rattle.read_parts.specs.Fronts.{ReadsBy};

    // The trees of such rules.
    ghost Tree: { Type 0 };

    // The tree of a rule.
    ghost view: { Self → Tree };

    // How the grammar reads it.
    ghost reads: { Reads Tree };

    /// The rule at the front.
    fn read(alloc: Global, tokens: &[Token]) -> Result<Front<'_, Self>, Unread>
        ensures { ReadsBy view (reads (kinds tokens.now)) result };
}

// No rule follows where the ruleset ends, so that a semicolon before that is the last one.
#[tactic(auto, unfolding(vtl_grammar::specs::Reading::after_keyword))]
fn ends_rules(tokens: &[Token]) -> bool
    ensures { result ≡ ends_rules (kinds tokens.now) }
{
    after_keyword(tokens, Keyword::End).is_some()
}

// The rules, and whether a semicolon is last.
fn rules<R: Rule>(alloc: Global, tokens: &[Token]) -> Result<Front<'_, (List<R>, bool)>, Unread>
    ensures { ReadsBy (first_by (map R.view)) (rules_read R.reads (kinds tokens.now)) result }
{
    let first = R::read(alloc, tokens)?;
    let mut found = Vec::new(alloc);
    found.push(first.part)?;
    more_rules(alloc, found, first.rest)
}

// The rules after these, each after a semicolon.
fn more_rules<R: Rule>(
    alloc: Global,
    mut found: Vec<R>,
    tokens: &[Token],
) -> Result<Front<'_, (List<R>, bool)>, Unread>
    ensures { ReadsBy (first_by (map R.view)) (more_rules R.reads (length (kinds tokens.now)) (map R.view found.items) (kinds tokens.now)) result }
{
    let mut rest = tokens;
    for _ in tokens {
        let Some(after) = after_sign(rest, Sign::Semicolon) else {
            break;
        };
        if ends_rules(after) {
            return Ok(Front {
                part: (List::of(found), true),
                rest: after,
            });
        }
        let next = R::read(alloc, after)?;
        found.push(next.part)?;
        rest = next.rest;
    }
    Ok(Front {
        part: (List::of(found), false),
        rest,
    })
}

/// The rules of a ruleset, from the bracket before them to the ruleset's end, and whether a semicolon is last.
#[tactic(auto, unfolding(vtl_grammar::specs::ReadStatements::rules_between))]
pub fn rules_between<R: Rule>(
    alloc: Global,
    kind: Keyword,
    tokens: &[Token],
) -> Result<Front<'_, (List<R>, bool)>, Unread>
    ensures { ReadsBy (first_by (map R.view)) (rules_between kind (rules_read R.reads) (kinds tokens.now)) result }
{
    let after = ruleset_is(tokens).ok_or(Unread::Absent)?;
    let Front { part, rest } = rules(alloc, after)?;
    let rest = ruleset_end(rest, kind).ok_or(Unread::Absent)?;
    Ok(Front { part, rest })
}
