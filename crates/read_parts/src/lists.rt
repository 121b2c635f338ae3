// Lists of parts, with a comma between them.
//
// Loops run `for _ in tokens`: they end by their form, and the definition bounds their turns in the same way.
ghost use Rattle.std.specs.Prelude.{length};
ghost use Rattle.vtl_grammar.specs.Faults.{kinds};
ghost use Rattle.vtl_grammar.specs.ReadParts.{comps};
ghost use Rattle.vtl_grammar.specs.Reading.{listed, more_items};
ghost use Rattle.read_parts.specs.Fronts.{ReadsAs};

use crate::front::{Front, Unread, after_sign};
use crate::names;
use std::alloc::Global;
use vtl_lexer::{Sign, Token};
use vtl_syntax::Comp;
use vtl_text::List;

/// A part that stands in lists.
pub trait Item: Drop {
    ghost use Rattle.vtl_grammar.specs.Faults.{kinds};
    ghost use Rattle.vtl_grammar.specs.Reading.{Reads};
    ghost use Rattle.read_parts.specs.Fronts.{ReadsAs};

    // How the grammar reads it.
    ghost reads: { Reads Self };

    /// The part at the front.
    fn read(alloc: Global, tokens: &[Token]) -> Result<Front<'_, Self>, Unread>
        ensures { ReadsAs (reads (kinds tokens.now)) result };
}

/// One part, and those that follow it after commas.
pub fn listed<I: Item>(alloc: Global, tokens: &[Token]) -> Result<Front<'_, List<I>>, Unread>
    ensures { ReadsAs (listed I.reads (kinds tokens.now)) result }
{
    let first = I::read(alloc, tokens)?;
    let mut items = Vec::new(alloc);
    items.push(first.part)?;
    more(alloc, items, first.rest)
}

// The parts after these, each after a comma.
fn more<I: Item>(
    alloc: Global,
    mut items: Vec<I>,
    tokens: &[Token],
) -> Result<Front<'_, List<I>>, Unread>
    ensures { ReadsAs (more_items I.reads (length (kinds tokens.now)) items.items (kinds tokens.now)) result }
{
    let mut rest = tokens;
    for _ in tokens {
        let Some(after) = after_sign(rest, Sign::Comma) else {
            break;
        };
        let next = I::read(alloc, after)?;
        items.push(next.part)?;
        rest = next.rest;
    }
    Ok(Front {
        part: List::of(items),
        rest,
    })
}

impl Item for Comp {
    ghost use Rattle.vtl_grammar.specs.Reading.{word};
    ghost use Rattle.vtl_grammar.specs.Words.{comp_at};

    ghost reads = { word comp_at };

    fn read(_: Global, tokens: &[Token]) -> Result<Front<'_, Comp>, Unread> {
        names::comp(tokens)
    }
}

/// Names of components.
#[tactic(auto, unfolding(vtl_grammar::specs::ReadParts::comps))]
pub fn comps(alloc: Global, tokens: &[Token]) -> Result<Front<'_, List<Comp>>, Unread>
    ensures { ReadsAs (comps (kinds tokens.now)) result }
{
    listed(alloc, tokens)
}
