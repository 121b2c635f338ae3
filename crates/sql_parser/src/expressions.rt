// Expressions: signs, brackets, calls, and what follows an operand.
ghost use Rattle.std.specs.Prelude.{suc};
ghost use Rattle.grammar_forms.specs.Forms.{after, before, deep, limited, made, maybe, seq};
ghost use Rattle.sql_lexer.specs.declared.token.Word.TheVariants as word;
ghost use Rattle.sql_parser_parts.specs.Answers.{AnswersBy, kinds};
ghost use Rattle.sql_parser.specs.Depths.{Nests, box_tree, deep_view, place_of};
ghost use Rattle.sql_parser.specs.Tails.{compared_reads, tail_view, tailed_reads};
ghost use Rattle.sql_tree.specs.Grammar.{Negated, Signed, Whole, add, aggr, aggregates_table, at_place, bracketed, branch, call_of, case, cmp, compare_ops_table, conjunction, counted, disjunction, exists, expr, expr_at, in_brackets, key, membership, mul, neg, negated, null_test, of_table, operator_before, prim, signs_table, tail, un};
ghost use Rattle.sql_tree.specs.Trees as tree;
ghost use Rattle.sql_tree.specs.View.{branch_tree};
ghost use Rattle.vtl_cell.specs.declared.operator.ScalarOp.TheVariants as op;

use crate::deep::{BranchList, OperandList};
use crate::grammar::{Deep, Grammar, Node, Place, deeper, leaf, node};
use crate::levels::{AddLevel, AndLevel, MulLevel, OrLevel};
use sql_lexer::Word;
use sql_parser_parts::{
    Front, Tokens, Unread, before, both, column, constant, key, membership, null_test, optional,
    sought, word,
};
use sql_tree::{Branch, Literal, SqlExpr};
use vtl_cell::{AggKind, ScalarOp};
use vtl_text::List;

// What may follow an operand.
#[derive(Drop)]
pub(crate) enum Tail {
    Compared(ScalarOp, Deep<Box<SqlExpr>>),
    IsNull(bool),
    Among(bool, Vec<Literal>),
}

impl<F: Fn(Place, Tokens<'_>) -> Result<Node<'_>, Unread>> Grammar<F> {
    // `"(" expr ")"`
    #[tactic(auto, unfolding(sql_tree::specs::Grammar::bracketed))]
    fn bracketed<'t>(&self, tokens: Tokens<'t>) -> Result<Node<'t>, Unread>
        requires { Nests self.now.budget (F.pre self.now.read) (F.post self.now.read) }
        ensures { AnswersBy (deep_view box_tree) ((bracketed (suc self.now.budget) (expr_at self.now.budget Whole)).reads (kinds tokens.now)) result }
    {
        let inner = self.in_brackets(tokens)?;
        deeper(self.budget, inner.part, inner.rest)
    }

    // What stands between brackets
    fn in_brackets<'t>(&self, tokens: Tokens<'t>) -> Result<Node<'t>, Unread>
        requires { Nests self.now.budget (F.pre self.now.read) (F.post self.now.read) }
        ensures { AnswersBy (deep_view box_tree) ((in_brackets (expr_at self.now.budget Whole)).reads (kinds tokens.now)) result }
    {
        let part = (self.read)(Place::Whole, key(tokens, Word::Open)?)?;
        before(part, Word::Close)
    }

    // An expression after a word
    fn behind<'t>(&self, mark: Word, tokens: Tokens<'t>) -> Result<Node<'t>, Unread>
        requires { Nests self.now.budget (F.pre self.now.read) (F.post self.now.read) }
        ensures { AnswersBy (deep_view box_tree) ((after (key mark) (expr_at self.now.budget Whole)).reads (kinds tokens.now)) result }
    {
        (self.read)(Place::Whole, key(tokens, mark)?)
    }

    // `function "(" operands ")"`
    #[tactic(auto, using(crate::proofs::Views::views), unfolding(sql_tree::specs::Grammar::call_of))]
    fn call<'t>(&self, tokens: Tokens<'t>) -> Result<Node<'t>, Unread>
        requires { Nests self.now.budget (F.pre self.now.read) (F.post self.now.read) }
        ensures { AnswersBy (deep_view box_tree) ((call_of (suc self.now.budget) (expr_at self.now.budget Whole)).reads (kinds tokens.now)) result }
    {
        let table = [
            (Word::Abs, ScalarOp::Absolute),
            (Word::Floor, ScalarOp::Floor),
            (Word::Ceil, ScalarOp::Ceil),
            (Word::Round, ScalarOp::Round),
            (Word::Trunc, ScalarOp::Truncate),
            (Word::Mod, ScalarOp::Modulo),
            (Word::Trim, ScalarOp::Trim),
            (Word::Ltrim, ScalarOp::TrimLeft),
            (Word::Rtrim, ScalarOp::TrimRight),
            (Word::Substr, ScalarOp::Substring),
            (Word::Replace, ScalarOp::Replace),
            (Word::Instr, ScalarOp::Position),
            (Word::Length, ScalarOp::Length),
            (Word::Coalesce, ScalarOp::ValueOr),
            (Word::Between, ScalarOp::Between),
            (Word::PeriodShift, ScalarOp::PeriodShift),
            (Word::PeriodFrequency, ScalarOp::PeriodFrequency),
        ];
        let function = word(tokens, &table).ok_or(Unread::Absent)?;
        let operands = self.listed::<OperandList>(key(function.rest, Word::Open)?)?;
        let operands = before(operands, Word::Close)?;
        let part = operands.part;
        let tree = SqlExpr::Call {
            function: function.part,
            operands: part.tree,
        };
        node(self.alloc, self.budget, tree, part.depth, operands.rest)
    }

    // `"*" | expr`
    #[tactic(auto, using(crate::proofs::Views::views), unfolding(sql_tree::specs::Grammar::counted))]
    fn counted<'t>(&self, tokens: Tokens<'t>) -> Result<Node<'t>, Unread>
        requires { Nests self.now.budget (F.pre self.now.read) (F.post self.now.read) }
        ensures { AnswersBy (deep_view box_tree) ((counted (suc self.now.budget) (expr_at self.now.budget Whole)).reads (kinds tokens.now)) result }
    {
        if let Ok(rest) = key(tokens, Word::Star) {
            return leaf(self.alloc, SqlExpr::CountAll, rest);
        }
        let operand = (self.read)(Place::Whole, tokens)?;
        let part = operand.part;
        let tree = SqlExpr::Aggregate {
            function: AggKind::Count,
            operand: part.tree,
        };
        node(self.alloc, self.budget, tree, part.depth, operand.rest)
    }

    // `COUNT` of rows or of an expression
    fn count<'t>(&self, tokens: Tokens<'t>) -> Result<Node<'t>, Unread>
        requires { Nests self.now.budget (F.pre self.now.read) (F.post self.now.read) }
        ensures { AnswersBy (deep_view box_tree) ((after (key word.Count) (in_brackets (counted (suc self.now.budget) (expr_at self.now.budget Whole)))).reads (kinds tokens.now)) result }
    {
        let inner = key(key(tokens, Word::Count)?, Word::Open)?;
        before(self.counted(inner)?, Word::Close)
    }

    // An aggregate of an expression other than COUNT
    #[tactic(auto, using(crate::proofs::Views::views))]
    fn other_aggregate<'t>(&self, tokens: Tokens<'t>) -> Result<Node<'t>, Unread>
        requires { Nests self.now.budget (F.pre self.now.read) (F.post self.now.read) }
        ensures { AnswersBy (deep_view box_tree) ((made (λ p. limited (suc self.now.budget) (tree.aggregate p.0 p.1.tree) (suc p.1.depth)) (seq (of_table aggregates_table) (in_brackets (expr_at self.now.budget Whole)))).reads (kinds tokens.now)) result }
    {
        let table = [
            (Word::Sum, AggKind::Sum),
            (Word::Avg, AggKind::Avg),
            (Word::Min, AggKind::Min),
            (Word::Max, AggKind::Max),
            (Word::Median, AggKind::Median),
        ];
        let function = word(tokens, &table).ok_or(Unread::Absent)?;
        let operand = self.in_brackets(function.rest)?;
        let part = operand.part;
        let tree = SqlExpr::Aggregate {
            function: function.part,
            operand: part.tree,
        };
        node(self.alloc, self.budget, tree, part.depth, operand.rest)
    }

    // An aggregate
    #[tactic(auto, unfolding(sql_tree::specs::Grammar::aggr))]
    fn aggregate<'t>(&self, tokens: Tokens<'t>) -> Result<Node<'t>, Unread>
        requires { Nests self.now.budget (F.pre self.now.read) (F.post self.now.read) }
        ensures { AnswersBy (deep_view box_tree) ((aggr (suc self.now.budget) (expr_at self.now.budget Whole)).reads (kinds tokens.now)) result }
    {
        if let Some(count) = optional(self.count(tokens))? {
            return Ok(count);
        }
        self.other_aggregate(tokens)
    }

    // `"WHEN" expr "THEN" expr`
    #[tactic(auto, using(crate::proofs::Views::views), unfolding(sql_tree::specs::Grammar::branch))]
    pub(crate) fn branch<'t>(&self, tokens: Tokens<'t>) -> Result<Front<'t, Deep<Branch>>, Unread>
        requires { Nests self.now.budget (F.pre self.now.read) (F.post self.now.read) }
        ensures { AnswersBy (deep_view branch_tree) ((branch (expr_at self.now.budget Whole)).reads (kinds tokens.now)) result }
    {
        let condition = self.behind(Word::When, tokens)?;
        let rest = condition.rest;
        let pair = both(condition.part, self.behind(Word::Then, rest))?;
        let (condition, value) = pair.part;
        Ok(Front {
            part: Deep {
                tree: Branch {
                    condition: Box::into_inner(condition.tree),
                    value: Box::into_inner(value.tree),
                },
                depth: condition.depth.max(value.depth),
            },
            rest: pair.rest,
        })
    }

    // `"ELSE" expr "END"`
    fn other<'t>(&self, tokens: Tokens<'t>) -> Result<Node<'t>, Unread>
        requires { Nests self.now.budget (F.pre self.now.read) (F.post self.now.read) }
        ensures { AnswersBy (deep_view box_tree) ((before (after (key word.Else) (expr_at self.now.budget Whole)) (key word.End)).reads (kinds tokens.now)) result }
    {
        before(self.behind(Word::Else, tokens)?, Word::End)
    }

    // `"CASE" branches "ELSE" expr "END"`
    #[tactic(auto, using(crate::proofs::Views::views), unfolding(sql_tree::specs::Grammar::case, sql_tree::specs::Grammar::branches))]
    fn case<'t>(&self, tokens: Tokens<'t>) -> Result<Node<'t>, Unread>
        requires { Nests self.now.budget (F.pre self.now.read) (F.post self.now.read) }
        ensures { AnswersBy (deep_view box_tree) ((case (suc self.now.budget) (expr_at self.now.budget Whole)).reads (kinds tokens.now)) result }
    {
        let branches = self.listed::<BranchList>(key(tokens, Word::Case)?)?;
        let rest = branches.rest;
        let pair = both(branches.part, self.other(rest))?;
        let (branches, other) = pair.part;
        let depth = branches.depth.max(other.depth);
        let tree = SqlExpr::Case {
            branches: branches.tree,
            other: other.tree,
        };
        node(self.alloc, self.budget, tree, depth, pair.rest)
    }

    // A sign and its operand
    #[tactic(auto, using(crate::proofs::Views::views))]
    fn sign<'t>(&self, tokens: Tokens<'t>) -> Result<Node<'t>, Unread>
        requires { Nests self.now.budget (F.pre self.now.read) (F.post self.now.read) }
        ensures { AnswersBy (deep_view box_tree) ((made (λ p. operator_before (suc self.now.budget) p.0 p.1) (seq (of_table signs_table) (expr_at self.now.budget Signed))).reads (kinds tokens.now)) result }
    {
        let table = [
            (Word::Plus, ScalarOp::Identity),
            (Word::Minus, ScalarOp::Negate),
        ];
        let op = word(tokens, &table).ok_or(Unread::Absent)?;
        let operand = (self.read)(Place::Signed, op.rest)?;
        let part = operand.part;
        let tree = SqlExpr::Unary {
            op: op.part,
            operand: part.tree,
        };
        node(self.alloc, self.budget, tree, part.depth, operand.rest)
    }

    // `"NOT"` and its operand
    #[tactic(auto, using(crate::proofs::Views::views))]
    fn not<'t>(&self, tokens: Tokens<'t>) -> Result<Node<'t>, Unread>
        requires { Nests self.now.budget (F.pre self.now.read) (F.post self.now.read) }
        ensures { AnswersBy (deep_view box_tree) ((made (operator_before (suc self.now.budget) op.Not) (after (key word.Not) (expr_at self.now.budget Negated))).reads (kinds tokens.now)) result }
    {
        let operand = (self.read)(Place::Negated, key(tokens, Word::Not)?)?;
        let part = operand.part;
        let tree = SqlExpr::Unary {
            op: ScalarOp::Not,
            operand: part.tree,
        };
        node(self.alloc, self.budget, tree, part.depth, operand.rest)
    }

    // An EXISTS, of depth 3
    #[tactic(auto, using(crate::proofs::Views::views), unfolding(sql_tree::specs::Grammar::exists))]
    fn exists<'t>(&self, tokens: Tokens<'t>) -> Result<Node<'t>, Unread>
        requires { Nests self.now.budget (F.pre self.now.read) (F.post self.now.read) }
        ensures { AnswersBy (deep_view box_tree) ((exists (suc self.now.budget)).reads (kinds tokens.now)) result }
    {
        let found = sought(self.alloc, tokens)?;
        let (source, equalities) = found.part;
        let tree = SqlExpr::Exists {
            source,
            equalities: List::of(equalities),
        };
        node(self.alloc, self.budget, tree, 2, found.rest)
    }

    // What is not a sign
    #[tactic(auto, using(crate::proofs::Views::views), unfolding(sql_tree::specs::Grammar::prim))]
    fn prim<'t>(&self, tokens: Tokens<'t>) -> Result<Node<'t>, Unread>
        requires { Nests self.now.budget (F.pre self.now.read) (F.post self.now.read) }
        ensures { AnswersBy (deep_view box_tree) ((prim (suc self.now.budget) (expr_at self.now.budget Whole)).reads (kinds tokens.now)) result }
    {
        if let Some(constant) = optional(constant(tokens))? {
            return leaf(self.alloc, SqlExpr::Constant(constant.part), constant.rest);
        }
        if let Some(column) = optional(column(tokens))? {
            return leaf(self.alloc, SqlExpr::Column(column.part), column.rest);
        }
        if let Some(bracketed) = optional(self.bracketed(tokens))? {
            return Ok(bracketed);
        }
        if let Some(call) = optional(self.call(tokens))? {
            return Ok(call);
        }
        if let Some(aggregate) = optional(self.aggregate(tokens))? {
            return Ok(aggregate);
        }
        if let Some(case) = optional(self.case(tokens))? {
            return Ok(case);
        }
        self.exists(tokens)
    }

    // A sign and its operand, or what has no sign
    #[tactic(auto, unfolding(sql_tree::specs::Grammar::un))]
    pub(crate) fn signed<'t>(&self, tokens: Tokens<'t>) -> Result<Node<'t>, Unread>
        requires { Nests self.now.budget (F.pre self.now.read) (F.post self.now.read) }
        ensures { AnswersBy (deep_view box_tree) ((un (suc self.now.budget) (expr_at self.now.budget)).reads (kinds tokens.now)) result }
    {
        if let Some(sign) = optional(self.sign(tokens))? {
            return Ok(sign);
        }
        self.prim(tokens)
    }

    // Factors
    #[tactic(auto, unfolding(sql_tree::specs::Grammar::mul))]
    pub(crate) fn product<'t>(&self, tokens: Tokens<'t>) -> Result<Node<'t>, Unread>
        requires { Nests self.now.budget (F.pre self.now.read) (F.post self.now.read) }
        ensures { AnswersBy (deep_view box_tree) ((mul (suc self.now.budget) (expr_at self.now.budget)).reads (kinds tokens.now)) result }
    {
        self.grouped::<MulLevel>(tokens)
    }

    // Terms
    #[tactic(auto, unfolding(sql_tree::specs::Grammar::add))]
    fn sum<'t>(&self, tokens: Tokens<'t>) -> Result<Node<'t>, Unread>
        requires { Nests self.now.budget (F.pre self.now.read) (F.post self.now.read) }
        ensures { AnswersBy (deep_view box_tree) ((add (suc self.now.budget) (expr_at self.now.budget)).reads (kinds tokens.now)) result }
    {
        self.grouped::<AddLevel>(tokens)
    }

    // A comparison and what is compared with
    fn compared<'t>(&self, tokens: Tokens<'t>) -> Result<Front<'t, Tail>, Unread>
        requires { Nests self.now.budget (F.pre self.now.read) (F.post self.now.read) }
        ensures { AnswersBy tail_view (compared_reads (add (suc self.now.budget) (expr_at self.now.budget)).reads (kinds tokens.now)) result }
    {
        let table = [
            (Word::Equal, ScalarOp::Equal),
            (Word::NotEqual, ScalarOp::NotEqual),
            (Word::Less, ScalarOp::Less),
            (Word::LessOrEqual, ScalarOp::LessOrEqual),
            (Word::Greater, ScalarOp::Greater),
            (Word::GreaterOrEqual, ScalarOp::GreaterOrEqual),
        ];
        let op = word(tokens, &table).ok_or(Unread::Absent)?;
        let right = self.sum(op.rest)?;
        Ok(Front {
            part: Tail::Compared(op.part, right.part),
            rest: right.rest,
        })
    }

    // What may follow an operand
    #[tactic(auto, unfolding(sql_tree::specs::Grammar::tail))]
    fn tail<'t>(&self, tokens: Tokens<'t>) -> Result<Front<'t, Tail>, Unread>
        requires { Nests self.now.budget (F.pre self.now.read) (F.post self.now.read) }
        ensures { AnswersBy tail_view ((tail (suc self.now.budget) (expr_at self.now.budget)).reads (kinds tokens.now)) result }
    {
        if let Some(compared) = optional(self.compared(tokens))? {
            return Ok(compared);
        }
        if let Some(tested) = optional(null_test(tokens))? {
            return Ok(Front {
                part: Tail::IsNull(tested.part),
                rest: tested.rest,
            });
        }
        let among = membership(self.alloc, tokens)?;
        let (negated, literals) = among.part;
        Ok(Front {
            part: Tail::Among(negated, literals),
            rest: among.rest,
        })
    }

    // An operand with what follows it
    #[tactic(auto, using(crate::proofs::Views::views))]
    fn with_tail<'t>(
        &self,
        left: Deep<Box<SqlExpr>>,
        tail: Front<'t, Tail>,
    ) -> Result<Node<'t>, Unread>
        requires { Nests self.now.budget (F.pre self.now.read) (F.post self.now.read) }
        ensures { AnswersBy (deep_view box_tree) (tailed_reads (suc self.now.budget) (deep (box_tree left.tree) left.depth) (tail_view tail.entry.part) (kinds tail.entry.rest.now)) result }
    {
        let Front { part, rest } = tail;
        match part {
            Tail::Compared(op, right) => {
                let depth = left.depth.max(right.depth);
                let tree = SqlExpr::Binary {
                    left: left.tree,
                    op,
                    right: right.tree,
                };
                node(self.alloc, self.budget, tree, depth, rest)
            }
            Tail::IsNull(negated) => {
                let tree = SqlExpr::IsNull {
                    operand: left.tree,
                    negated,
                };
                node(self.alloc, self.budget, tree, left.depth, rest)
            }
            Tail::Among(negated, literals) => {
                let tree = SqlExpr::InList {
                    operand: left.tree,
                    negated,
                    literals: List::of(literals),
                };
                node(self.alloc, self.budget, tree, left.depth, rest)
            }
        }
    }

    // An operand, and what follows it if anything does
    #[tactic(auto, unfolding(sql_tree::specs::Grammar::cmp))]
    fn compare<'t>(&self, tokens: Tokens<'t>) -> Result<Node<'t>, Unread>
        requires { Nests self.now.budget (F.pre self.now.read) (F.post self.now.read) }
        ensures { AnswersBy (deep_view box_tree) ((cmp (suc self.now.budget) (expr_at self.now.budget)).reads (kinds tokens.now)) result }
    {
        let left = self.sum(tokens)?;
        match optional(self.tail(left.rest))? {
            Some(tail) => self.with_tail(left.part, tail),
            None => Ok(left),
        }
    }

    // `NOT` and its operand, or what has no `NOT`
    #[tactic(auto, unfolding(sql_tree::specs::Grammar::neg))]
    pub(crate) fn negation<'t>(&self, tokens: Tokens<'t>) -> Result<Node<'t>, Unread>
        requires { Nests self.now.budget (F.pre self.now.read) (F.post self.now.read) }
        ensures { AnswersBy (deep_view box_tree) ((neg (suc self.now.budget) (expr_at self.now.budget)).reads (kinds tokens.now)) result }
    {
        if let Some(not) = optional(self.not(tokens))? {
            return Ok(not);
        }
        self.compare(tokens)
    }

    // What stands between two ORs
    #[tactic(auto, unfolding(sql_tree::specs::Grammar::conjunction))]
    pub(crate) fn conjunction<'t>(&self, tokens: Tokens<'t>) -> Result<Node<'t>, Unread>
        requires { Nests self.now.budget (F.pre self.now.read) (F.post self.now.read) }
        ensures { AnswersBy (deep_view box_tree) ((conjunction (suc self.now.budget) (expr_at self.now.budget)).reads (kinds tokens.now)) result }
    {
        self.grouped::<AndLevel>(tokens)
    }

    // Any expression
    #[tactic(auto, unfolding(sql_tree::specs::Grammar::disjunction))]
    fn disjunction<'t>(&self, tokens: Tokens<'t>) -> Result<Node<'t>, Unread>
        requires { Nests self.now.budget (F.pre self.now.read) (F.post self.now.read) }
        ensures { AnswersBy (deep_view box_tree) ((disjunction (suc self.now.budget) (expr_at self.now.budget)).reads (kinds tokens.now)) result }
    {
        self.grouped::<OrLevel>(tokens)
    }

    // What may stand at a place
    #[tactic(auto, unfolding(sql_tree::specs::Grammar::at_place))]
    pub(crate) fn at<'t>(&self, place: Place, tokens: Tokens<'t>) -> Result<Node<'t>, Unread>
        requires { Nests self.now.budget (F.pre self.now.read) (F.post self.now.read) }
        ensures { AnswersBy (deep_view box_tree) ((at_place (suc self.now.budget) (expr_at self.now.budget) (place_of place)).reads (kinds tokens.now)) result }
    {
        match place {
            Place::Whole => self.disjunction(tokens),
            Place::Negated => self.negation(tokens),
            Place::Signed => self.signed(tokens),
        }
    }
}
