// What tests of operands hold besides expressions.
ghost use Rattle.grammar_forms.specs.Forms.{after};
ghost use Rattle.sql_lexer.specs.declared.token.Word.TheVariants as word;
ghost use Rattle.sql_parser_parts.specs.Answers.{Answers, AnswersBy, kinds, with_items};
ghost use Rattle.sql_tree.specs.Grammar.{in_brackets, key, matched, membership, negated, null_test, one};

use crate::front::{Front, Tokens, Unread, before};
use crate::parts::{bracketed_literals, equalities, one, source};
use crate::words::{flag, key, two_keys};
use sql_lexer::Word;
use sql_tree::{Equality, Literal, Source};
use std::alloc::Global;

// `["NOT"]`
#[tactic(auto, unfolding(sql_tree::specs::Grammar::negated))]
fn negated(tokens: Tokens<'_>) -> Result<Front<'_, bool>, Unread>
    ensures { Answers (negated.reads (kinds tokens.now)) result }
{
    Ok(flag(tokens, Word::Not))
}

/// `"IS" ["NOT"] "NULL"`: whether NOT stands there.
#[tactic(auto, unfolding(sql_tree::specs::Grammar::null_test))]
pub fn null_test(tokens: Tokens<'_>) -> Result<Front<'_, bool>, Unread>
    ensures { Answers (null_test.reads (kinds tokens.now)) result }
{
    let negated = negated(key(tokens, Word::Is)?)?;
    let rest = key(negated.rest, Word::Null)?;
    Ok(Front {
        part: negated.part,
        rest,
    })
}

/// `["NOT"] "IN" "(" literals ")"`: whether NOT stands there, and the literals.
#[tactic(auto, unfolding(sql_tree::specs::Grammar::membership))]
pub fn membership(
    alloc: Global,
    tokens: Tokens<'_>,
) -> Result<Front<'_, (bool, Vec<Literal>)>, Unread>
    ensures { AnswersBy with_items (membership.reads (kinds tokens.now)) result }
{
    let negated = negated(tokens)?;
    let literals = bracketed_literals(alloc, key(negated.rest, Word::In)?)?;
    Ok(Front {
        part: (negated.part, literals.part),
        rest: literals.rest,
    })
}

// A source, and equalities after `WHERE`
#[tactic(auto, unfolding(sql_tree::specs::Grammar::matched))]
fn matched(alloc: Global, tokens: Tokens<'_>) -> Result<Front<'_, (Source, Vec<Equality>)>, Unread>
    ensures { AnswersBy with_items (matched.reads (kinds tokens.now)) result }
{
    let source = source(alloc, tokens)?;
    let equalities = equalities(alloc, source.rest)?;
    Ok(Front {
        part: (source.part, equalities.part),
        rest: equalities.rest,
    })
}

// What is selected in an EXISTS
fn selected_one(
    alloc: Global,
    tokens: Tokens<'_>,
) -> Result<Front<'_, (Source, Vec<Equality>)>, Unread>
    ensures { AnswersBy with_items ((after (key word.Select) (after one (after (key word.From) matched))).reads (kinds tokens.now)) result }
{
    let behind = one(key(tokens, Word::Select)?)?;
    matched(alloc, key(behind, Word::From)?)
}

/// An EXISTS: the source that it looks in, and the equalities that it looks for.
pub fn sought(
    alloc: Global,
    tokens: Tokens<'_>,
) -> Result<Front<'_, (Source, Vec<Equality>)>, Unread>
    ensures { AnswersBy with_items ((after (key word.Exists) (in_brackets (after (key word.Select) (after one (after (key word.From) matched))))).reads (kinds tokens.now)) result }
{
    let inner = two_keys(tokens, Word::Exists, Word::Open)?;
    before(selected_one(alloc, inner)?, Word::Close)
}
