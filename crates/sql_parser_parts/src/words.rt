// Keywords and marks.
ghost use Rattle.std.specs.Prelude.{◌≡◌, List, None, Some, MatchResult, map, option_map};
ghost use Rattle.grammar_forms.specs.Forms.{first_as, lookup, maybe, «as»};
ghost use Rattle.sql_lexer.specs.Places.{place};
ghost use Rattle.sql_parser_parts.specs.declared.front.Unread.TheVariants as unread;
ghost use Rattle.sql_parser_parts.specs.Answers.{by_places, front_view, kinds, marked, same};
ghost use Rattle.sql_tree.specs.Classes.{class};
ghost use Rattle.sql_tree.specs.Grammar.{is_some, key, two_keys};

use crate::front::{Front, Tokens, Unread, next};
use sql_lexer::{TokenKind, Word};

// The word's place among the words.
fn place(word: Word) -> u8
    ensures { result ≡ place word }
{
    word as u8
}

const NAME_CLASS: u8 = 200;

const TEXT_CLASS: u8 = 201;

const INT_CLASS: u8 = 202;

const DEC_CLASS: u8 = 203;

// The class of a token: the place of a word, and a number above them all for each kind of other token.
fn class_of(kind: &TokenKind) -> u8
    ensures { result ≡ class kind.now }
{
    match kind {
        TokenKind::Word(word) => place(*word),
        TokenKind::Name(_) => NAME_CLASS,
        TokenKind::Text(_) => TEXT_CLASS,
        TokenKind::Int(_) => INT_CLASS,
        TokenKind::Dec(_) => DEC_CLASS,
    }
}

/// The tokens after the word, where it stands first.
pub fn key(tokens: Tokens<'_>, word: Word) -> Result<Tokens<'_>, Unread>
    ensures { MatchResult result (λ rest. (key word).reads (kinds tokens.now) ≡ Some (marked (kinds rest.now))) (λ e. ((key word).reads (kinds tokens.now) ≡ None) × (e ≡ unread.Absent)) }
{
    let (first, rest) = next(tokens).ok_or(Unread::Absent)?;
    if class_of(first) == place(word) {
        Ok(rest)
    } else {
        Err(Unread::Absent)
    }
}

/// What the word at the front stands for in a table of words, if it has an entry there; the first entry counts.
pub fn word<'t, A: Copy>(tokens: Tokens<'t>, table: &[(Word, A)]) -> Option<Front<'t, A>>
    ensures { option_map (front_view same) result ≡ first_as (λ t. lookup (by_places table.now) (class t)) (kinds tokens.now) }
{
    let (first, rest) = next(tokens)?;
    let part = looked_up(table, class_of(first))?;
    Some(Front { part, rest })
}

fn looked_up<A: Copy>(table: &[(Word, A)], class: u8) -> Option<A>
    ensures { result ≡ lookup (by_places table.now) class }
{
    for (word, value) in table {
        if place(*word) == class {
            return Some(*value);
        }
    }
    None
}

/// The tokens after two words, where they stand first.
pub fn two_keys(tokens: Tokens<'_>, first: Word, second: Word) -> Result<Tokens<'_>, Unread>
    ensures { MatchResult result (λ rest. (two_keys first second).reads (kinds tokens.now) ≡ Some (marked (kinds rest.now))) (λ e. ((two_keys first second).reads (kinds tokens.now) ≡ None) × (e ≡ unread.Absent)) }
{
    key(key(tokens, first)?, second)
}

// Whether the word stands first, and the tokens after it where it does.
pub(crate) fn flag(tokens: Tokens<'_>, word: Word) -> Front<'_, bool>
    ensures { («as» is_some (maybe (key word))).reads (kinds tokens.now) ≡ Some (front_view same result) }
{
    match key(tokens, word) {
        Ok(rest) => Front { part: true, rest },
        Err(_) => Front {
            part: false,
            rest: tokens,
        },
    }
}
