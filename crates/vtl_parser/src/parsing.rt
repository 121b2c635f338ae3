// The script of a text.
//
// The place of a fault is that of its statement, so no reader carries places.
ghost use Rattle.std.specs.Prelude.{◌≡◌, ℕ, IfOk, MatchResult};
ghost use Rattle.vtl_grammar.specs.Faults.{WholeScript, byte_of};
ghost use Rattle.vtl_parser.specs.Parsed.{IsSyntaxError, IsFault, IsFaultOf, IsFaulty, IsMemory, IsScript};
ghost use Rattle.vtl_syntax.specs.Trees.{ScriptTree};
ghost use Rattle.vtl_syntax.specs.View.{script_tree};
ghost use Rattle.vtl_syntax.specs.Written.{AreWritten};

use crate::statements::statements;
use std::alloc::{AllocError, Global};
use vtl_lexer::{Token, tokens_before_fault};
use vtl_syntax::{Script, Statement};
use vtl_text::{List, Shared};

/// Why a text was not read as a script.
#[derive(Clone, Copy, Debug, PartialEq, Eq)]
pub enum ParseErr {
    /// The text is no script.
    Syntax {
        /// The greatest number of statements that stand at its front.
        done: usize,
        /// The byte, from 0, at which what follows them starts.
        byte: usize,
    },
    /// There was not enough memory.
    OutOfMemory,
}

impl From<AllocError> for ParseErr {
    ghost use Rattle.std.specs.Prelude.{◌≡◌};
    ghost use Rattle.vtl_parser.specs.declared.parsing.ParseErr.TheVariants.{OutOfMemory};

    ghost from_gives = { λ _ e. e ≡ OutOfMemory };

    fn from(_: AllocError) -> ParseErr {
        ParseErr::OutOfMemory
    }
}

/// The script that `text` is. It fails exactly where the text is no script, with its fault, and if memory runs out.
pub fn parse(alloc: Global, text: &str) -> Result<Script, ParseErr>
    ensures answer { MatchResult result (λ script. IsScript text.now (script_tree script)) (λ error. IsFault text.now error) }
    ensures scripts { (script : ScriptTree) → IsScript text.now script → MatchResult result (λ read. script_tree read ≡ script) (λ error. IsMemory error) }
    ensures faults { (done byte : ℕ) → IsFaulty text.now done byte → MatchResult result (λ read. ⊥) (λ error. IsSyntaxError done byte error) }
    ensures written { IfOk result (λ script. AreWritten (script_tree script)) }
{
    let lexed = tokens_before_fault(alloc, text)?;
    script_of(alloc, lexed.tokens.as_slice(), lexed.bad)
}

// The script that all of the tokens are, unless a byte follows them from which no token starts.
fn script_of(alloc: Global, tokens: &[Token], bad: Option<usize>) -> Result<Script, ParseErr>
    ensures { MatchResult result (λ script. WholeScript tokens.now bad (script_tree script)) (λ error. IsFaultOf tokens.now bad error) }
{
    let Ok(read) = statements(alloc, tokens) else {
        return Err(ParseErr::OutOfMemory);
    };
    // The tokens that are left are the last ones.
    let place = tokens.len() - read.rest.len();
    match next_byte(&tokens[place..], bad) {
        Some(byte) => Err(ParseErr::Syntax {
            done: read.part.as_slice().len(),
            byte,
        }),
        None => script(read.part),
    }
}

fn script(statements: List<Statement>) -> Result<Script, ParseErr>
    ensures { MatchResult result (λ script. script.statements ≡ statements) (λ error. IsMemory error) }
{
    Ok(Script {
        statements: Shared::of(statements.into_vec())?,
    })
}

// The start of the next token, or the byte from which none starts.
fn next_byte(tokens: &[Token], bad: Option<usize>) -> Option<usize>
    ensures { result ≡ byte_of tokens.now bad }
{
    match tokens.first() {
        Some(token) => Some(token.start),
        None => bad,
    }
}
