// Levels of operators that group to the left.
ghost use Rattle.std.specs.Prelude.{length, suc};
ghost use Rattle.grammar_forms.specs.Forms.{chain_reads, deep, then_reads, turns};
ghost use Rattle.sql_parser_parts.specs.Answers.{AnswersBy, front_view, kinds};
ghost use Rattle.sql_parser.specs.Depths.{Nests, box_tree, deep_view, step_view};
ghost use Rattle.sql_parser.specs.Steps.{AnswersTurn, turn_reads};
ghost use Rattle.sql_tree.specs.Grammar.{joined_by, of_table};

use crate::grammar::{Deep, Grammar, Node, Place, node};
use sql_lexer::Word;
use sql_parser_parts::{Front, Tokens, Unread, optional, word};
use sql_tree::SqlExpr;
use vtl_cell::ScalarOp;

// A level of operators that group to the left.
pub(crate) trait Level {
    ghost use Rattle.std.specs.Prelude.{◌≡◌, ℕ, List, option_map};
    ghost use Rattle.grammar_forms.specs.Forms.{Deep, Reads};
    ghost use Rattle.sql_lexer.specs.declared.token.TokenKind.{TokenKind};
    ghost use Rattle.sql_parser_parts.specs.Answers.{AnswersBy, front_view, kinds, same};
    ghost use Rattle.sql_parser.specs.Depths.{Nests, box_tree, deep_view};
    ghost use Rattle.sql_tree.specs.Grammar.{of_table};
    ghost use Rattle.sql_tree.specs.Trees.{Exp};
    ghost use Rattle.vtl_cell.specs.declared.operator.ScalarOp.{ScalarOp};

    // Its operators, and how an operand is read at a budget of parts.
    ghost ops: { List (ℕ × ScalarOp) };

    ghost operand: { ℕ → Reads TokenKind (Deep Exp) };

    fn operator(tokens: Tokens<'_>) -> Option<Front<'_, ScalarOp>>
        ensures { option_map (front_view same) result ≡ (of_table ops).reads (kinds tokens.now) };

    fn operand<'t, F: Fn(Place, Tokens<'_>) -> Result<Node<'_>, Unread>>(
        grammar: &Grammar<F>,
        tokens: Tokens<'t>,
    ) -> Result<Node<'t>, Unread>
        requires { Nests grammar.now.budget (F.pre grammar.now.read) (F.post grammar.now.read) }
        ensures { AnswersBy (deep_view box_tree) (operand grammar.now.budget (kinds tokens.now)) result };
}

// What a turn gives: what was read with one more operator, or the same as before.
#[derive(Drop)]
pub(crate) enum Turn<'t> {
    More(Node<'t>),
    End(Node<'t>),
}

impl<F: Fn(Place, Tokens<'_>) -> Result<Node<'_>, Unread>> Grammar<F> {
    // An operator and its right operand.
    fn step<'t, L: Level>(
        &self,
        tokens: Tokens<'t>,
    ) -> Result<Front<'t, (ScalarOp, Deep<Box<SqlExpr>>)>, Unread>
        requires { Nests self.now.budget (F.pre self.now.read) (F.post self.now.read) }
        ensures { AnswersBy step_view (then_reads (of_table L.ops).reads (L.operand self.now.budget) (kinds tokens.now)) result }
    {
        let op = L::operator(tokens).ok_or(Unread::Absent)?;
        let right = L::operand(self, op.rest)?;
        Ok(Front {
            part: (op.part, right.part),
            rest: right.rest,
        })
    }

    // One more step after what was read, if one stands there.
    fn turn<'t, L: Level>(&self, left: Node<'t>) -> Result<Turn<'t>, Unread>
        requires { Nests self.now.budget (F.pre self.now.read) (F.post self.now.read) }
        ensures { AnswersTurn (turn_reads (then_reads (of_table L.ops).reads (L.operand self.now.budget)) (joined_by (suc self.now.budget)) (deep (box_tree left.entry.part.tree) left.entry.part.depth) (kinds left.entry.rest.now)) (front_view (deep_view box_tree) left.entry) result }
    {
        let Some(step) = optional(self.step::<L>(left.rest))? else {
            return Ok(Turn::End(left));
        };
        let (op, right) = step.part;
        let left = left.part;
        let depth = left.depth.max(right.depth);
        let tree = SqlExpr::Binary {
            left: left.tree,
            op,
            right: right.tree,
        };
        Ok(Turn::More(node(self.alloc, self.budget, tree, depth, step.rest)?))
    }

    // The steps after an operand.
    fn more<'t, L: Level>(&self, left: Node<'t>) -> Result<Node<'t>, Unread>
        requires { Nests self.now.budget (F.pre self.now.read) (F.post self.now.read) }
        ensures { AnswersBy (deep_view box_tree) (turns (then_reads (of_table L.ops).reads (L.operand self.now.budget)) (joined_by (suc self.now.budget)) (length (kinds left.entry.rest.now)) (deep (box_tree left.entry.part.tree) left.entry.part.depth) (kinds left.entry.rest.now)) result }
    {
        let tokens = left.rest;
        let mut read = left;
        for _ in tokens {
            match self.turn::<L>(read)? {
                Turn::More(next) => read = next,
                Turn::End(last) => return Ok(last),
            }
        }
        Ok(read)
    }

    // An operand and the steps after it.
    pub(crate) fn grouped<'t, L: Level>(&self, tokens: Tokens<'t>) -> Result<Node<'t>, Unread>
        requires { Nests self.now.budget (F.pre self.now.read) (F.post self.now.read) }
        ensures { AnswersBy (deep_view box_tree) (chain_reads (L.operand self.now.budget) (then_reads (of_table L.ops).reads (L.operand self.now.budget)) (joined_by (suc self.now.budget)) (kinds tokens.now)) result }
    {
        let left = L::operand(self, tokens)?;
        self.more::<L>(left)
    }
}

pub(crate) struct OrLevel;

impl Level for OrLevel {
    ghost use Rattle.std.specs.Prelude.{suc};
    ghost use Rattle.sql_tree.specs.Grammar.{or_ops_table, expr_at, conjunction};

    ghost ops = { or_ops_table };

    ghost operand = { λ n. (conjunction (suc n) (expr_at n)).reads };

    fn operator(tokens: Tokens<'_>) -> Option<Front<'_, ScalarOp>> {
        let table = [(Word::Or, ScalarOp::Or), (Word::Xor, ScalarOp::Xor)];
        word(tokens, &table)
    }

    fn operand<'t, F: Fn(Place, Tokens<'_>) -> Result<Node<'_>, Unread>>(
        grammar: &Grammar<F>,
        tokens: Tokens<'t>,
    ) -> Result<Node<'t>, Unread> {
        grammar.conjunction(tokens)
    }
}

pub(crate) struct AndLevel;

impl Level for AndLevel {
    ghost use Rattle.std.specs.Prelude.{suc};
    ghost use Rattle.sql_tree.specs.Grammar.{and_ops_table, expr_at, neg};

    ghost ops = { and_ops_table };

    ghost operand = { λ n. (neg (suc n) (expr_at n)).reads };

    fn operator(tokens: Tokens<'_>) -> Option<Front<'_, ScalarOp>> {
        let table = [(Word::And, ScalarOp::And)];
        word(tokens, &table)
    }

    fn operand<'t, F: Fn(Place, Tokens<'_>) -> Result<Node<'_>, Unread>>(
        grammar: &Grammar<F>,
        tokens: Tokens<'t>,
    ) -> Result<Node<'t>, Unread> {
        grammar.negation(tokens)
    }
}

pub(crate) struct AddLevel;

impl Level for AddLevel {
    ghost use Rattle.std.specs.Prelude.{suc};
    ghost use Rattle.sql_tree.specs.Grammar.{add_ops_table, expr_at, mul};

    ghost ops = { add_ops_table };

    ghost operand = { λ n. (mul (suc n) (expr_at n)).reads };

    fn operator(tokens: Tokens<'_>) -> Option<Front<'_, ScalarOp>> {
        let table = [
            (Word::Plus, ScalarOp::Add),
            (Word::Minus, ScalarOp::Subtract),
            (Word::Concat, ScalarOp::Concat),
        ];
        word(tokens, &table)
    }

    fn operand<'t, F: Fn(Place, Tokens<'_>) -> Result<Node<'_>, Unread>>(
        grammar: &Grammar<F>,
        tokens: Tokens<'t>,
    ) -> Result<Node<'t>, Unread> {
        grammar.product(tokens)
    }
}

pub(crate) struct MulLevel;

impl Level for MulLevel {
    ghost use Rattle.std.specs.Prelude.{suc};
    ghost use Rattle.sql_tree.specs.Grammar.{multiply_ops_table, expr_at, un};

    ghost ops = { multiply_ops_table };

    ghost operand = { λ n. (un (suc n) (expr_at n)).reads };

    fn operator(tokens: Tokens<'_>) -> Option<Front<'_, ScalarOp>> {
        let table = [
            (Word::Star, ScalarOp::Multiply),
            (Word::Slash, ScalarOp::Divide),
        ];
        word(tokens, &table)
    }

    fn operand<'t, F: Fn(Place, Tokens<'_>) -> Result<Node<'_>, Unread>>(
        grammar: &Grammar<F>,
        tokens: Tokens<'t>,
    ) -> Result<Node<'t>, Unread> {
        grammar.signed(tokens)
    }
}
