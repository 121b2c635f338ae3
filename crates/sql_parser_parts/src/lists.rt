// Lists of parts.
ghost use Rattle.std.specs.Prelude.{length, map};
ghost use Rattle.grammar_forms.specs.Forms.{added, chain_reads, turns};
ghost use Rattle.sql_parser_parts.specs.Answers.{AnswersBy, first_item, item_views, kinds};

use crate::front::{Front, Tokens, Unread, optional};
use crate::words::key;
use sql_lexer::Word;
use std::alloc::Global;

/// A kind of list: how its first item is read, and how each item after it is, with the mark before it.
pub trait ListKind {
    ghost use Rattle.grammar_forms.specs.Forms.{Reads};
    ghost use Rattle.sql_lexer.specs.declared.token.TokenKind.{TokenKind};
    ghost use Rattle.sql_parser_parts.specs.Answers.{AnswersBy, kinds};

    /// What an item is read as.
    type Item: Drop;

    // What an item stands for.
    ghost Tree: { Type 0 };

    ghost view: { Self.Item → Tree };

    ghost first: { Reads TokenKind Tree };

    ghost step: { Reads TokenKind Tree };

    /// The first item.
    fn first(alloc: Global, tokens: Tokens<'_>) -> Result<Front<'_, Self::Item>, Unread>
        ensures { AnswersBy view (first (kinds tokens.now)) result };

    /// An item after another one.
    fn step(alloc: Global, tokens: Tokens<'_>) -> Result<Front<'_, Self::Item>, Unread>
        ensures { AnswersBy view (step (kinds tokens.now)) result };
}

/// An item, and as many as follow it.
pub fn listed<L: ListKind>(
    alloc: Global,
    tokens: Tokens<'_>,
) -> Result<Front<'_, Vec<L::Item>>, Unread>
    ensures { AnswersBy (item_views L.view) (chain_reads (first_item L.first) L.step added (kinds tokens.now)) result }
{
    let first = L::first(alloc, tokens)?;
    let mut items = Vec::new(alloc);
    items.push(first.part)?;
    more::<L>(alloc, items, first.rest)
}

/// These items, and as many as follow them.
pub fn more<L: ListKind>(
    alloc: Global,
    mut items: Vec<L::Item>,
    tokens: Tokens<'_>,
) -> Result<Front<'_, Vec<L::Item>>, Unread>
    ensures { AnswersBy (item_views L.view) (turns L.step added (length (kinds tokens.now)) (map L.view items.items) (kinds tokens.now)) result }
{
    let mut rest = tokens;
    for _ in tokens {
        let Some(next) = optional(L::step(alloc, rest))? else {
            break;
        };
        items.push(next.part)?;
        rest = next.rest;
    }
    Ok(Front { part: items, rest })
}

/// A part that stands in lists with a comma between two.
pub trait Part {
    ghost use Rattle.grammar_forms.specs.Forms.{Reads};
    ghost use Rattle.sql_lexer.specs.declared.token.TokenKind.{TokenKind};
    ghost use Rattle.sql_parser_parts.specs.Answers.{AnswersBy, kinds};

    /// What it is read as.
    type Item: Drop;

    // What it stands for.
    ghost Tree: { Type 0 };

    ghost view: { Self.Item → Tree };

    ghost reads: { Reads TokenKind Tree };

    /// The part at the front.
    fn read(alloc: Global, tokens: Tokens<'_>) -> Result<Front<'_, Self::Item>, Unread>
        ensures { AnswersBy view (reads (kinds tokens.now)) result };
}

/// The list of parts with a comma between two.
pub struct Commas<P>(P);

impl<P: Part> ListKind for Commas<P> {
    ghost use Rattle.sql_lexer.specs.declared.token.Word.TheVariants.{Comma};
    ghost use Rattle.sql_parser_parts.specs.Answers.{after_word};

    type Item = P::Item;

    ghost Tree = { P.Tree };

    ghost view = { P.view };

    ghost first = { P.reads };

    ghost step = { after_word Comma P.reads };

    fn first(alloc: Global, tokens: Tokens<'_>) -> Result<Front<'_, P::Item>, Unread> {
        P::read(alloc, tokens)
    }

    fn step(alloc: Global, tokens: Tokens<'_>) -> Result<Front<'_, P::Item>, Unread> {
        P::read(alloc, key(tokens, Word::Comma)?)
    }
}
