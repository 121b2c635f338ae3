// The reader of expressions at one budget, over the reader at the next lower one.
//
// Expressions are read over a closure: some forty productions in a circle are methods of `Grammar<F>`, and `read`
// alone closes the circle. A circle of forty functions would have to be proved as one.
ghost use Rattle.std.specs.Prelude.{◌≡◌, Some};
ghost use Rattle.vtl_grammar.specs.Faults.{kinds};
ghost use Rattle.vtl_grammar.specs.Reading.{got};
ghost use Rattle.read_expressions.specs.Reads.{GetsBy, box_tree};
ghost use Rattle.vtl_syntax.specs.View.{expr_tree};

use crate::reads::Read;
use read_parts::Unread;
use std::alloc::Global;
use vtl_grammar::Level;
use vtl_lexer::Token;
use vtl_syntax::Expr;

// `read` reads the parts, and `budget` is how deep they may be.
#[derive(Drop)]
pub(crate) struct Grammar<F> {
    pub(crate) alloc: Global,
    pub(crate) budget: usize,
    pub(crate) read: F,
}

impl<F: Fn(Level, &[Token]) -> Result<Read<'_, Box<Expr>>, Unread>> Grammar<F> {
    pub(crate) fn new(alloc: Global, budget: usize, read: F) -> Grammar<F>
        ensures budget { result.budget ≡ budget }
        ensures read { result.read ≡ read }
    {
        Grammar {
            alloc,
            budget,
            read,
        }
    }
}

// A tree that was read, in a box.
pub(crate) fn node(
    alloc: Global,
    tree: Expr,
    spare: usize,
    rest: &[Token],
) -> Result<Read<'_, Box<Expr>>, Unread>
    ensures { GetsBy box_tree (Some (got (expr_tree tree) spare (kinds rest.now))) result }
{
    Ok(Read {
        tree: Box::new(alloc, tree)?,
        spare,
        rest,
    })
}
