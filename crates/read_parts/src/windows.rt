// Orders, frames and windows.
ghost use Rattle.vtl_grammar.specs.Faults.{kinds};
ghost use Rattle.vtl_grammar.specs.ReadParts.{current, limit, limits_between, order_by_part, order_part, order_parts, over_part, partition_part, points_part};
ghost use Rattle.read_parts.specs.Fronts.{ReadsAs};

use crate::front::{Front, Unread, absent, after_keyword, after_sign, some};
use crate::lists::{Item, comps, listed};
use crate::names::{comp, integer};
use crate::words::{maybe_word, word};
use std::alloc::Global;
use vtl_lexer::{Keyword, Sign, Token};
use vtl_syntax::{Comp, DataPoints, Limit, OrderPart, OverPart};
use vtl_text::List;

#[tactic(auto, unfolding(vtl_grammar::specs::ReadParts::order_part))]
fn order_part(tokens: &[Token]) -> Result<Front<'_, OrderPart>, Unread>
    ensures { ReadsAs (order_part (kinds tokens.now)) result }
{
    let component = comp(tokens)?;
    let direction = maybe_word(component.rest);
    Ok(Front {
        part: OrderPart {
            component: component.part,
            direction: direction.part,
        },
        rest: direction.rest,
    })
}

impl Item for OrderPart {
    ghost use Rattle.vtl_grammar.specs.ReadParts.{order_part};

    ghost reads = { order_part };

    fn read(_: Global, tokens: &[Token]) -> Result<Front<'_, OrderPart>, Unread> {
        order_part(tokens)
    }
}

#[tactic(auto, unfolding(vtl_grammar::specs::ReadParts::order_parts))]
fn order_parts(alloc: Global, tokens: &[Token]) -> Result<Front<'_, List<OrderPart>>, Unread>
    ensures { ReadsAs (order_parts (kinds tokens.now)) result }
{
    listed(alloc, tokens)
}

// `current data point`
#[tactic(auto, unfolding(vtl_grammar::specs::ReadParts::current))]
fn current(tokens: &[Token]) -> Result<Front<'_, Limit>, Unread>
    ensures { ReadsAs (current (kinds tokens.now)) result }
{
    let after = after_keyword(tokens, Keyword::Current).ok_or(Unread::Absent)?;
    let after = after_keyword(after, Keyword::Data).ok_or(Unread::Absent)?;
    let rest = after_keyword(after, Keyword::Point).ok_or(Unread::Absent)?;
    Ok(Front {
        part: Limit::Current,
        rest,
    })
}

// A bound of a frame.
#[tactic(auto, unfolding(vtl_grammar::specs::ReadParts::limit))]
fn limit(tokens: &[Token]) -> Result<Front<'_, Limit>, Unread>
    ensures { ReadsAs (limit (kinds tokens.now)) result }
{
    if let Some(after) = after_keyword(tokens, Keyword::Unbounded) {
        let side = word(after).ok_or(Unread::Absent)?;
        return Ok(Front {
            part: Limit::Unbounded(side.part),
            rest: side.rest,
        });
    }
    match integer(tokens) {
        Ok(points) => {
            let side = word(points.rest).ok_or(Unread::Absent)?;
            Ok(Front {
                part: Limit::Points {
                    points: points.part,
                    side: side.part,
                },
                rest: side.rest,
            })
        }
        Err(Unread::Absent) => current(tokens),
        Err(Unread::OutOfMemory) => Err(Unread::OutOfMemory),
    }
}

// `partition by names`, if it stands there.
#[tactic(auto, unfolding(vtl_grammar::specs::ReadParts::partition_part))]
fn partition_part(alloc: Global, tokens: &[Token]) -> Result<Front<'_, Option<List<Comp>>>, Unread>
    ensures { ReadsAs (partition_part (kinds tokens.now)) result }
{
    let Some(after) = after_keyword(tokens, Keyword::Partition) else {
        return Ok(absent(tokens));
    };
    let after = after_keyword(after, Keyword::By).ok_or(Unread::Absent)?;
    Ok(some(comps(alloc, after)?))
}

// `order by keys`, if it stands there.
#[tactic(auto, unfolding(vtl_grammar::specs::ReadParts::order_by_part))]
fn order_by_part(
    alloc: Global,
    tokens: &[Token],
) -> Result<Front<'_, Option<List<OrderPart>>>, Unread>
    ensures { ReadsAs (order_by_part (kinds tokens.now)) result }
{
    let Some(after) = after_keyword(tokens, Keyword::Order) else {
        return Ok(absent(tokens));
    };
    let after = after_keyword(after, Keyword::By).ok_or(Unread::Absent)?;
    Ok(some(order_parts(alloc, after)?))
}

// What follows `data` in a frame.
#[tactic(auto, unfolding(vtl_grammar::specs::ReadParts::limits_between))]
fn limits_between(tokens: &[Token]) -> Result<Front<'_, DataPoints>, Unread>
    ensures { ReadsAs (limits_between (kinds tokens.now)) result }
{
    let after = after_keyword(tokens, Keyword::Points).ok_or(Unread::Absent)?;
    let after = after_keyword(after, Keyword::Between).ok_or(Unread::Absent)?;
    let from = limit(after)?;
    let after = after_keyword(from.rest, Keyword::And).ok_or(Unread::Absent)?;
    let to = limit(after)?;
    Ok(Front {
        part: DataPoints {
            from: from.part,
            to: to.part,
        },
        rest: to.rest,
    })
}

// A frame, if one stands there.
#[tactic(auto, unfolding(vtl_grammar::specs::ReadParts::points_part))]
fn points_part(tokens: &[Token]) -> Result<Front<'_, Option<DataPoints>>, Unread>
    ensures { ReadsAs (points_part (kinds tokens.now)) result }
{
    match after_keyword(tokens, Keyword::Data) {
        Some(after) => Ok(some(limits_between(after)?)),
        None => Ok(absent(tokens)),
    }
}

/// `over (partition by names order by keys points)`
#[tactic(auto, unfolding(vtl_grammar::specs::ReadParts::over_part))]
pub fn over_part(alloc: Global, tokens: &[Token]) -> Result<Front<'_, OverPart>, Unread>
    ensures { ReadsAs (over_part (kinds tokens.now)) result }
{
    let after = after_keyword(tokens, Keyword::Over).ok_or(Unread::Absent)?;
    let after = after_sign(after, Sign::OpenBracket).ok_or(Unread::Absent)?;
    let partition = partition_part(alloc, after)?;
    let order = order_by_part(alloc, partition.rest)?;
    let points = points_part(order.rest)?;
    let rest = after_sign(points.rest, Sign::CloseBracket).ok_or(Unread::Absent)?;
    Ok(Front {
        part: OverPart {
            partition: partition.part,
            order: order.part,
            points: points.part,
        },
        rest,
    })
}
