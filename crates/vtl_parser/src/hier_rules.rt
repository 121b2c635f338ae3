// Rules of hierarchical rulesets.
ghost use Rattle.std.specs.Prelude.{◌≡◌, length, nat_le};
ghost use Rattle.vtl_grammar.specs.Faults.{kinds};
ghost use Rattle.vtl_syntax.specs.Depth.{depth_limit, hier_rule_depth};
ghost use Rattle.vtl_grammar.specs.ReadStatements.{hier_rule_read, more_signed, right_side};
ghost use Rattle.read_parts.specs.Fronts.{ReadsAs};

use crate::heads::rule_name;
use crate::rules::Rule;
use read_parts::{Front, Unread, comp, error_part, maybe_word, word};
use std::alloc::Global;
use vtl_grammar::DEPTH_LIMIT;
use vtl_lexer::Token;
use vtl_syntax::{Addition, Comp, HierRule, SignedComp};
use vtl_text::List;

// The signed items after these.
fn more_signed(
    mut items: Vec<SignedComp>,
    tokens: &[Token],
) -> Result<Front<'_, List<SignedComp>>, Unread>
    ensures { ReadsAs (more_signed (length (kinds tokens.now)) items.items (kinds tokens.now)) result }
{
    let mut rest = tokens;
    for _ in tokens {
        let Some(sign) = word::<Addition>(rest) else {
            break;
        };
        let item = comp(sign.rest)?;
        items.push(SignedComp {
            sign: sign.part,
            item: item.part,
        })?;
        rest = item.rest;
    }
    Ok(Front {
        part: List::of(items),
        rest,
    })
}

// The items at the right of a rule, each with its sign except the first, which may have none.
#[tactic(auto, unfolding(vtl_grammar::specs::ReadStatements::right_side))]
fn right_side(
    alloc: Global,
    tokens: &[Token],
) -> Result<Front<'_, (Option<Addition>, (Comp, List<SignedComp>))>, Unread>
    ensures { ReadsAs (right_side (kinds tokens.now)) result }
{
    let sign = maybe_word(tokens);
    let first = comp(sign.rest)?;
    let others = more_signed(Vec::new(alloc), first.rest)?;
    Ok(Front {
        part: (sign.part, (first.part, others.part)),
        rest: others.rest,
    })
}

// Whether a rule is no deeper than a statement may be: it has two levels, and one more for each sign, a leading one
// too.
fn is_shallow(rule: &HierRule) -> bool
    ensures { result ≡ nat_le (hier_rule_depth rule.now) depth_limit }
{
    let leading = match rule.sign {
        Some(_) => 1,
        None => 0,
    };
    rule.others.as_slice().len() <= DEPTH_LIMIT - 2 - leading
}

// `name: item comparison sign first others error`
#[tactic(auto, unfolding(vtl_grammar::specs::ReadStatements::hier_rule_read))]
fn hier_rule(alloc: Global, tokens: &[Token]) -> Result<Front<'_, HierRule>, Unread>
    ensures { ReadsAs (hier_rule_read (kinds tokens.now)) result }
{
    let name = rule_name(tokens)?;
    let item = comp(name.rest)?;
    let comparison = word(item.rest).ok_or(Unread::Absent)?;
    let right = right_side(alloc, comparison.rest)?;
    let error = error_part(right.rest)?;
    let (sign, (first, others)) = right.part;
    let part = HierRule {
        name: name.part,
        item: item.part,
        comparison: comparison.part,
        sign,
        first,
        others,
        error: error.part,
    };
    if is_shallow(&part) {
        Ok(Front {
            part,
            rest: error.rest,
        })
    } else {
        Err(Unread::Absent)
    }
}

impl Rule for HierRule {
    ghost use Rattle.vtl_grammar.specs.ReadStatements.{hier_rule_read};
    ghost use Rattle.read_parts.specs.Fronts.{same};
    ghost use Rattle.vtl_syntax.specs.declared.statements.HierRule.{HierRule};

    ghost Tree = { HierRule };

    ghost view = { same };

    ghost reads = { hier_rule_read };

    fn read(alloc: Global, tokens: &[Token]) -> Result<Front<'_, HierRule>, Unread> {
        hier_rule(alloc, tokens)
    }
}
