// Parts of calls.
ghost use Rattle.std.specs.Prelude.{Some};
ghost use Rattle.vtl_grammar.specs.Faults.{kinds};
ghost use Rattle.vtl_grammar.specs.ReadParts.{filling_part, periods_part, retain_part, rule_part, ruleset_part, shift_part, time_part};
ghost use Rattle.read_parts.specs.Fronts.{ReadsAs};

use crate::front::{Front, Unread, absent, after_keyword, after_sign, some};
use crate::literals::literal;
use crate::names::{comp, integer, name};
use crate::words::word;
use vtl_lexer::{Keyword, Sign, Token};
use vtl_syntax::{Comp, Filling, Literal, Retain, TimeCall, TimeName};
use vtl_text::Txt;

/// `, points` or `, points, default`
#[tactic(auto, unfolding(vtl_grammar::specs::ReadParts::shift_part))]
pub fn shift_part(tokens: &[Token]) -> Result<Front<'_, (Txt, Option<Literal>)>, Unread>
    ensures { ReadsAs (shift_part (kinds tokens.now)) result }
{
    let after = after_sign(tokens, Sign::Comma).ok_or(Unread::Absent)?;
    let points = integer(after)?;
    let Some(after) = after_sign(points.rest, Sign::Comma) else {
        return Ok(Front {
            part: (points.part, None),
            rest: points.rest,
        });
    };
    let default = literal(after)?;
    Ok(Front {
        part: (points.part, Some(default.part)),
        rest: default.rest,
    })
}

/// `, all`, `, true` or `, false`, if one stands there.
#[tactic(auto, unfolding(vtl_grammar::specs::ReadParts::retain_part))]
pub fn retain_part(tokens: &[Token]) -> Result<Front<'_, Option<Retain>>, Unread>
    ensures { ReadsAs (retain_part (kinds tokens.now)) result }
{
    match after_sign(tokens, Sign::Comma) {
        Some(after) => Ok(some(word(after).ok_or(Unread::Absent)?)),
        None => Ok(absent(tokens)),
    }
}

// `, periods` or `, -periods`
#[tactic(auto, unfolding(vtl_grammar::specs::ReadParts::periods_part))]
fn periods_part(tokens: &[Token]) -> Result<Front<'_, TimeCall>, Unread>
    ensures { ReadsAs (periods_part (kinds tokens.now)) result }
{
    let after = after_sign(tokens, Sign::Comma).ok_or(Unread::Absent)?;
    let (negative, digits) = match after_sign(after, Sign::Minus) {
        Some(behind) => (true, behind),
        None => (false, after),
    };
    let periods = integer(digits)?;
    Ok(Front {
        part: TimeCall::Timeshift {
            negative,
            periods: periods.part,
        },
        rest: periods.rest,
    })
}

// `, single` or `, all`, if one stands there.
#[tactic(auto, unfolding(vtl_grammar::specs::ReadParts::filling_part))]
fn filling_part(tokens: &[Token]) -> Result<Front<'_, Option<Filling>>, Unread>
    ensures { ReadsAs (filling_part (kinds tokens.now)) result }
{
    match after_sign(tokens, Sign::Comma) {
        Some(after) => Ok(some(word(after).ok_or(Unread::Absent)?)),
        None => Ok(absent(tokens)),
    }
}

/// What stands behind the operand of the time operator.
#[tactic(auto, unfolding(vtl_grammar::specs::ReadParts::time_part))]
pub fn time_part(name: TimeName, tokens: &[Token]) -> Result<Front<'_, TimeCall>, Unread>
    ensures { ReadsAs (time_part name (kinds tokens.now)) result }
{
    match name {
        TimeName::Timeshift => periods_part(tokens),
        TimeName::FillTimeSeries => {
            let filling = filling_part(tokens)?;
            Ok(Front {
                part: TimeCall::FillTimeSeries(filling.part),
                rest: filling.rest,
            })
        }
        TimeName::FlowToStock => Ok(Front {
            part: TimeCall::FlowToStock,
            rest: tokens,
        }),
        TimeName::StockToFlow => Ok(Front {
            part: TimeCall::StockToFlow,
            rest: tokens,
        }),
    }
}

/// `, name`
#[tactic(auto, unfolding(vtl_grammar::specs::ReadParts::ruleset_part))]
pub fn ruleset_part(tokens: &[Token]) -> Result<Front<'_, Txt>, Unread>
    ensures { ReadsAs (ruleset_part (kinds tokens.now)) result }
{
    let after = after_sign(tokens, Sign::Comma).ok_or(Unread::Absent)?;
    name(after)
}

/// `rule component`, if it stands there; the word alone is left, since it may be an input. It fails only if memory runs
/// out.
#[tactic(auto, unfolding(vtl_grammar::specs::ReadParts::rule_part))]
pub fn rule_part(tokens: &[Token]) -> Result<Front<'_, Option<Comp>>, Unread>
    ensures { ReadsAs (Some (rule_part (kinds tokens.now))) result }
{
    let Some(after) = after_keyword(tokens, Keyword::Rule) else {
        return Ok(absent(tokens));
    };
    match comp(after) {
        Ok(component) => Ok(some(component)),
        Err(Unread::Absent) => Ok(absent(tokens)),
        Err(Unread::OutOfMemory) => Err(Unread::OutOfMemory),
    }
}
