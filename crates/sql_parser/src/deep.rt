// Lists of expressions and of the branches of CASE, with their depths.
//
// Each form has the bound of its depth built in, since a reader stops at it; that this is the bound of the depth is a
// law.
ghost use Rattle.std.specs.Prelude.{length, map};
ghost use Rattle.grammar_forms.specs.Forms.{chain_reads, deep, deep_added, turns};
ghost use Rattle.sql_parser_parts.specs.Answers.{AnswersBy, item_views, kinds};
ghost use Rattle.sql_parser.specs.Depths.{Nests, deep_view, first_deep};

use crate::grammar::{Deep, Grammar, Node, Place};
use sql_lexer::Word;
use sql_parser_parts::{Front, Tokens, Unread, key, optional};
use sql_tree::{Branch, SqlExpr};

// A kind of list with depths: how its first item is read at a budget of parts, and how each item after it is, with the
// mark before it.
pub(crate) trait DeepKind {
    ghost use Rattle.std.specs.Prelude.{ℕ};
    ghost use Rattle.grammar_forms.specs.Forms.{Deep, Reads};
    ghost use Rattle.sql_lexer.specs.declared.token.TokenKind.{TokenKind};
    ghost use Rattle.sql_parser_parts.specs.Answers.{AnswersBy, kinds};
    ghost use Rattle.sql_parser.specs.Depths.{Nests, deep_view};

    type Item: Drop;

    // What an item stands for.
    ghost Tree: { Type 0 };

    ghost view: { Self.Item → Tree };

    ghost first: { ℕ → Reads TokenKind (Deep Tree) };

    ghost step: { ℕ → Reads TokenKind (Deep Tree) };

    fn first<'t, F: Fn(Place, Tokens<'_>) -> Result<Node<'_>, Unread>>(
        grammar: &Grammar<F>,
        tokens: Tokens<'t>,
    ) -> Result<Front<'t, Deep<Self::Item>>, Unread>
        requires { Nests grammar.now.budget (F.pre grammar.now.read) (F.post grammar.now.read) }
        ensures { AnswersBy (deep_view view) (first grammar.now.budget (kinds tokens.now)) result };

    fn step<'t, F: Fn(Place, Tokens<'_>) -> Result<Node<'_>, Unread>>(
        grammar: &Grammar<F>,
        tokens: Tokens<'t>,
    ) -> Result<Front<'t, Deep<Self::Item>>, Unread>
        requires { Nests grammar.now.budget (F.pre grammar.now.read) (F.post grammar.now.read) }
        ensures { AnswersBy (deep_view view) (step grammar.now.budget (kinds tokens.now)) result };
}

impl<F: Fn(Place, Tokens<'_>) -> Result<Node<'_>, Unread>> Grammar<F> {
    // An item, and those that follow it.
    pub(crate) fn listed<'t, K: DeepKind>(
        &self,
        tokens: Tokens<'t>,
    ) -> Result<Front<'t, Deep<Vec<K::Item>>>, Unread>
        requires { Nests self.now.budget (F.pre self.now.read) (F.post self.now.read) }
        ensures { AnswersBy (deep_view (item_views K.view)) (chain_reads (first_deep (K.first self.now.budget)) (K.step self.now.budget) deep_added (kinds tokens.now)) result }
    {
        let first = K::first(self, tokens)?;
        let Deep { tree, depth } = first.part;
        let mut items = Vec::new(self.alloc);
        items.push(tree)?;
        self.items::<K>(items, depth, first.rest)
    }

    // The items after these.
    fn items<'t, K: DeepKind>(
        &self,
        mut items: Vec<K::Item>,
        depth: usize,
        tokens: Tokens<'t>,
    ) -> Result<Front<'t, Deep<Vec<K::Item>>>, Unread>
        requires { Nests self.now.budget (F.pre self.now.read) (F.post self.now.read) }
        ensures { AnswersBy (deep_view (item_views K.view)) (turns (K.step self.now.budget) deep_added (length (kinds tokens.now)) (deep (map K.view items.items) depth) (kinds tokens.now)) result }
    {
        let mut deepest = depth;
        let mut rest = tokens;
        for _ in tokens {
            let Some(next) = optional(K::step(self, rest))? else {
                break;
            };
            let Deep { tree, depth } = next.part;
            items.push(tree)?;
            deepest = deepest.max(depth);
            rest = next.rest;
        }
        Ok(Front {
            part: Deep {
                tree: items,
                depth: deepest,
            },
            rest,
        })
    }
}

// Operands, with a comma between two.
pub(crate) struct OperandList;

impl DeepKind for OperandList {
    ghost use Rattle.grammar_forms.specs.Forms.{after};
    ghost use Rattle.sql_lexer.specs.declared.token.Word.TheVariants.{Comma};
    ghost use Rattle.sql_tree.specs.Grammar.{Whole, expr_at, key};
    ghost use Rattle.sql_tree.specs.Trees.{Exp};
    ghost use Rattle.sql_tree.specs.View.{expr_tree};

    type Item = SqlExpr;

    ghost Tree = { Exp };

    ghost view = { expr_tree };

    ghost first = { λ n. (expr_at n Whole).reads };

    ghost step = { λ n. (after (key Comma) (expr_at n Whole)).reads };

    fn first<'t, F: Fn(Place, Tokens<'_>) -> Result<Node<'_>, Unread>>(
        grammar: &Grammar<F>,
        tokens: Tokens<'t>,
    ) -> Result<Front<'t, Deep<SqlExpr>>, Unread> {
        let operand = (grammar.read)(Place::Whole, tokens)?;
        let Deep { tree, depth } = operand.part;
        Ok(Front {
            part: Deep {
                tree: Box::into_inner(tree),
                depth,
            },
            rest: operand.rest,
        })
    }

    fn step<'t, F: Fn(Place, Tokens<'_>) -> Result<Node<'_>, Unread>>(
        grammar: &Grammar<F>,
        tokens: Tokens<'t>,
    ) -> Result<Front<'t, Deep<SqlExpr>>, Unread> {
        OperandList::first(grammar, key(tokens, Word::Comma)?)
    }
}

// Branches, with nothing between two.
pub(crate) struct BranchList;

impl DeepKind for BranchList {
    ghost use Rattle.sql_tree.specs.Grammar.{Whole, branch, expr_at};
    ghost use Rattle.sql_tree.specs.Trees.{Exp};
    ghost use Rattle.sql_tree.specs.View.{branch_tree};

    type Item = Branch;

    ghost Tree = { Exp × Exp };

    ghost view = { branch_tree };

    ghost first = { λ n. (branch (expr_at n Whole)).reads };

    ghost step = { λ n. (branch (expr_at n Whole)).reads };

    fn first<'t, F: Fn(Place, Tokens<'_>) -> Result<Node<'_>, Unread>>(
        grammar: &Grammar<F>,
        tokens: Tokens<'t>,
    ) -> Result<Front<'t, Deep<Branch>>, Unread> {
        grammar.branch(tokens)
    }

    fn step<'t, F: Fn(Place, Tokens<'_>) -> Result<Node<'_>, Unread>>(
        grammar: &Grammar<F>,
        tokens: Tokens<'t>,
    ) -> Result<Front<'t, Deep<Branch>>, Unread> {
        grammar.branch(tokens)
    }
}
