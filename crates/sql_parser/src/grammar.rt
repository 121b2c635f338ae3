// The reader of expressions at one budget of depth, over a reader of their parts at the next lower one.
ghost use Rattle.std.specs.Prelude.{◌≡◌, ◌≤◌, suc};
ghost use Rattle.grammar_forms.specs.Forms.{deep, gives};
ghost use Rattle.sql_parser_parts.specs.Answers.{AnswersBy, kinds};
ghost use Rattle.sql_parser.specs.Depths.{box_tree, deep_view, node_reads};
ghost use Rattle.sql_tree.specs.Grammar.{most_levels};
ghost use Rattle.sql_tree.specs.View.{expr_tree};

use sql_parser_parts::{Front, Tokens, Unread};
use sql_tree::SqlExpr;
use std::alloc::Global;

// Where an expression may stand inside another.
#[derive(Clone, Copy)]
pub(crate) enum Place {
    // Any expression.
    Whole,
    // What may follow NOT.
    Negated,
    // What may follow a sign.
    Signed,
}

// A tree, and how deep it is written.
#[derive(Drop)]
pub(crate) struct Deep<T> {
    pub(crate) tree: T,
    pub(crate) depth: usize,
}

pub(crate) type Node<'t> = Front<'t, Deep<Box<SqlExpr>>>;

// `read` reads parts, and `budget` is how deep they may be.
#[derive(Drop)]
pub(crate) struct Grammar<F> {
    pub(crate) alloc: Global,
    pub(crate) budget: usize,
    pub(crate) read: F,
}

impl<F: Fn(Place, Tokens<'_>) -> Result<Node<'_>, Unread>> Grammar<F> {
    pub(crate) fn new(alloc: Global, budget: usize, read: F) -> Grammar<F>
        ensures budget { result.budget ≡ budget }
        ensures read { result.read ≡ read }
    {
        Grammar {
            alloc,
            budget,
            read,
        }
    }
}

// A tree in a box, one level deeper than its parts.
pub(crate) fn node<'t>(
    alloc: Global,
    budget: usize,
    tree: SqlExpr,
    depth: usize,
    rest: Tokens<'t>,
) -> Result<Node<'t>, Unread>
    requires { budget ≤ most_levels }
    ensures { AnswersBy (deep_view box_tree) (node_reads (suc budget) (expr_tree tree) depth (kinds rest.now)) result }
{
    if depth > budget {
        return Err(Unread::Absent);
    }
    Ok(Front {
        part: Deep {
            tree: Box::new(alloc, tree)?,
            depth: depth + 1,
        },
        rest,
    })
}

// A leaf in a box.
pub(crate) fn leaf<'t>(alloc: Global, tree: SqlExpr, rest: Tokens<'t>) -> Result<Node<'t>, Unread>
    ensures { AnswersBy (deep_view box_tree) (gives (deep (expr_tree tree) 1) (kinds rest.now)) result }
{
    Ok(Front {
        part: Deep {
            tree: Box::new(alloc, tree)?,
            depth: 1,
        },
        rest,
    })
}

// The same tree, written one level deeper.
pub(crate) fn deeper<'t>(
    budget: usize,
    part: Deep<Box<SqlExpr>>,
    rest: Tokens<'t>,
) -> Result<Node<'t>, Unread>
    requires { budget ≤ most_levels }
    ensures { AnswersBy (deep_view box_tree) (node_reads (suc budget) (box_tree part.tree) part.depth (kinds rest.now)) result }
{
    if part.depth > budget {
        return Err(Unread::Absent);
    }
    Ok(Front {
        part: Deep {
            tree: part.tree,
            depth: part.depth + 1,
        },
        rest,
    })
}
