// The script of a text.
ghost use Rattle.std.specs.Prelude.{◌≡◌, ℕ, IfOk, MatchResult};
ghost use Rattle.grammar_forms.specs.Scripts.{WholeScript};
ghost use Rattle.sql_parser.specs.Parsed.{IsFault, IsFaultOf, IsMemory, IsSyntaxError, next_byte_of};
ghost use Rattle.sql_tree.specs.Formed.{FormedScript};
ghost use Rattle.sql_tree.specs.Grammar.{statement_at};
ghost use Rattle.sql_tree.specs.Texts.{IsFaulty, IsScript, kind, start};
ghost use Rattle.sql_tree.specs.Trees.{ScriptTree};
ghost use Rattle.sql_tree.specs.View.{script_tree};

use crate::scripts::script;
use sql_lexer::lex;
use sql_parser_parts::{Tokens, Unread};
use sql_tree::SqlScript;
use std::alloc::{AllocError, Global};

/// Why a text was not read as a script.
#[derive(Clone, Copy, Debug, PartialEq, Eq)]
pub enum SqlErr {
    /// The text is no script.
    Syntax {
        /// The greatest number of statements that stand at its front, SET being the first.
        done: usize,
        /// The byte, from 0, at which what follows them starts; the length of a text without tokens.
        byte: usize,
    },
    /// There was not enough memory.
    OutOfMemory,
}

impl From<AllocError> for SqlErr {
    ghost use Rattle.std.specs.Prelude.{◌≡◌};
    ghost use Rattle.sql_parser.specs.declared.parsing.SqlErr.TheVariants.{OutOfMemory};

    ghost from_gives = { λ _ e. e ≡ OutOfMemory };

    fn from(_: AllocError) -> SqlErr {
        SqlErr::OutOfMemory
    }
}

/// The script that `text` is. It fails exactly where the text is no script, with its fault, and if memory runs out. Its
/// time grows with the length of the text.
pub fn parse(alloc: Global, text: &str) -> Result<SqlScript, SqlErr>
    ensures answer { MatchResult result (λ script. IsScript text.now (script_tree script)) (λ error. IsFault text.now error) }
    ensures scripts { (script : ScriptTree) → IsScript text.now script → MatchResult result (λ read. script_tree read ≡ script) (λ error. IsMemory error) }
    ensures formed { IfOk result (λ script. FormedScript (script_tree script)) }
    ensures faults { (done byte : ℕ) → IsFaulty text.now done byte → MatchResult result (λ read. ⊥) (λ error. IsSyntaxError done byte error) }
{
    let lexed = lex(alloc, text)?;
    script_of(alloc, lexed.tokens.as_slice(), lexed.fault, text.len())
}

// The script that all of the tokens are, unless a byte follows them from which no token starts.
fn script_of(
    alloc: Global,
    tokens: Tokens<'_>,
    bad: Option<usize>,
    end: usize,
) -> Result<SqlScript, SqlErr>
    ensures { MatchResult result (λ script. WholeScript kind statement_at 1 tokens.now bad (script_tree script)) (λ error. IsFaultOf tokens.now bad end error) }
{
    match script(alloc, tokens) {
        Ok(read) => {
            let script = read.part;
            let done = script.statements.as_slice().len() + 1;
            // The tokens that are left are the last ones.
            let place = tokens.len() - read.rest.len();
            match next_byte(&tokens[place..], bad) {
                Some(byte) => Err(SqlErr::Syntax { done, byte }),
                None => Ok(script),
            }
        }
        Err(Unread::Absent) => Err(SqlErr::Syntax {
            done: 0,
            byte: next_byte(tokens, bad).unwrap_or(end),
        }),
        Err(Unread::OutOfMemory) => Err(SqlErr::OutOfMemory),
    }
}

// The start of the next token, or the byte from which none starts.
fn next_byte(tokens: Tokens<'_>, bad: Option<usize>) -> Option<usize>
    ensures { result ≡ next_byte_of tokens.now bad }
{
    match tokens.first() {
        Some(token) => Some(token.start),
        None => bad,
    }
}
