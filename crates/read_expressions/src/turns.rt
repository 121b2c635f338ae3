// What follows an operand, turn by turn.
ghost use Rattle.std.specs.Prelude.{◌≡◌, ℕ, suc, length, MatchResult, Some, option_map};
ghost use Rattle.vtl_grammar.specs.Faults.{kinds};
ghost use Rattle.vtl_grammar.specs.Levels.{looseness, operator_level};
ghost use Rattle.vtl_grammar.specs.ReadExpressions.{clause_behind, in_turns, member_behind, membership_at, operand_behind, operand_step, operator_at, postfix_step, read, set_behind};
ghost use Rattle.vtl_grammar.specs.Reading.{word};
ghost use Rattle.vtl_grammar.specs.Words.{in_at};
ghost use Rattle.vtl_grammar.specs.declared.levels.Level.TheVariants as level;
ghost use Rattle.read_expressions.specs.Reads.{GetsBy, GetsTurn, Nests, box_tree, got_of};
ghost use Rattle.read_parts.specs.Fronts.{front_view, same};

use crate::grammar::{Grammar, node};
use crate::reads::Read;
use read_parts::{Front, Unread, WordGroup, after_sign, comp, literal_set, next};
use std::alloc::Global;
use vtl_grammar::Level;
use vtl_lexer::{Keyword, Sign, Token, TokenKind};
use vtl_syntax::{BinaryOp, Expr};

// What a turn gives: what was read with one more thing, or the same as before.
#[derive(Drop)]
pub(crate) enum Turn<'t> {
    More(Read<'t, Box<Expr>>),
    End(Read<'t, Box<Expr>>),
}

// The budget of what is around it.
fn around(spare: usize) -> Result<usize, Unread>
    ensures { MatchResult result (λ s. spare ≡ suc s) (λ e. (spare ≡ 0) × (e ≡ Unread.Absent)) }
{
    if spare == 0 {
        Err(Unread::Absent)
    } else {
        Ok(spare - 1)
    }
}

fn looseness(level: Level) -> u8
    ensures { result ≡ looseness level }
{
    level as u8
}

fn operator_level(op: BinaryOp) -> Level
    ensures { result ≡ operator_level op }
{
    match op {
        BinaryOp::Or | BinaryOp::Xor => Level::Or,
        BinaryOp::And => Level::And,
        BinaryOp::Equal
        | BinaryOp::NotEqual
        | BinaryOp::Less
        | BinaryOp::LessOrEqual
        | BinaryOp::Greater
        | BinaryOp::GreaterOrEqual => Level::Compare,
        BinaryOp::Add | BinaryOp::Subtract | BinaryOp::Concat => Level::Add,
        BinaryOp::Multiply | BinaryOp::Divide => Level::Multiply,
    }
}

fn operator_at(level: Level, kind: &TokenKind) -> Option<BinaryOp>
    ensures { result ≡ operator_at level kind.now }
{
    let op = BinaryOp::spelled_by(kind)?;
    if looseness(operator_level(op)) == looseness(level) {
        Some(op)
    } else {
        None
    }
}

// The operator of a level at the front.
fn operator(level: Level, tokens: &[Token]) -> Option<Front<'_, BinaryOp>>
    ensures { option_map (front_view same) result ≡ word (operator_at level) (kinds tokens.now) }
{
    let (first, rest) = next(tokens)?;
    let part = operator_at(level, first)?;
    Some(Front { part, rest })
}

fn in_at(kind: &TokenKind) -> Option<bool>
    ensures { result ≡ in_at kind.now }
{
    match kind {
        TokenKind::Keyword(Keyword::NotIn) => Some(true),
        TokenKind::Keyword(Keyword::In) => Some(false),
        _ => None,
    }
}

fn membership_at(level: Level, kind: &TokenKind) -> Option<bool>
    ensures { result ≡ membership_at level kind.now }
{
    match level {
        Level::Compare => in_at(kind),
        _ => None,
    }
}

// `in` or `not_in`, which stand at the level of comparisons.
fn membership(level: Level, tokens: &[Token]) -> Option<Front<'_, bool>>
    ensures { option_map (front_view same) result ≡ word (membership_at level) (kinds tokens.now) }
{
    let (first, rest) = next(tokens)?;
    let part = membership_at(level, first)?;
    Some(Front { part, rest })
}

// `in` or `not_in` and the literals after an operand.
#[tactic(auto, using(crate::proofs::Views::views), unfolding(vtl_grammar::specs::ReadExpressions::set_behind))]
fn set_behind<'t>(
    alloc: Global,
    left: Read<'t, Box<Expr>>,
    negated: bool,
    after: &'t [Token],
) -> Result<Read<'t, Box<Expr>>, Unread>
    ensures { GetsBy box_tree (set_behind (got_of box_tree left.entry) negated (kinds after.now)) result }
{
    let spare = around(left.spare)?;
    let literals = literal_set(alloc, after)?;
    let tree = Expr::InSet {
        operand: left.tree,
        negated,
        literals: literals.part,
    };
    node(alloc, tree, spare, literals.rest)
}

// `#component` after an operand.
#[tactic(auto, using(crate::proofs::Views::views), unfolding(vtl_grammar::specs::ReadExpressions::member_behind))]
fn member_behind<'t>(
    alloc: Global,
    operand: Read<'t, Box<Expr>>,
    after: &'t [Token],
) -> Result<Read<'t, Box<Expr>>, Unread>
    ensures { GetsBy box_tree (member_behind (got_of box_tree operand.entry) (kinds after.now)) result }
{
    let spare = around(operand.spare)?;
    let component = comp(after)?;
    let tree = Expr::Member {
        operand: operand.tree,
        component: component.part,
    };
    node(alloc, tree, spare, component.rest)
}

impl<F: Fn(Level, &[Token]) -> Result<Read<'_, Box<Expr>>, Unread>> Grammar<F> {
    // `[clause]` after an operand.
    #[tactic(auto, using(crate::proofs::Views::views), unfolding(vtl_grammar::specs::ReadExpressions::clause_behind))]
    fn clause_behind<'t>(
        &self,
        operand: Read<'t, Box<Expr>>,
        after: &'t [Token],
    ) -> Result<Read<'t, Box<Expr>>, Unread>
        requires { Nests self.now.budget (F.pre self.now.read) (F.post self.now.read) }
        ensures { GetsBy box_tree (clause_behind self.now.budget (read self.now.budget level.Expression) (got_of box_tree operand.entry) (kinds after.now)) result }
    {
        let spare = around(operand.spare)?;
        let clause = self.clause(after)?;
        let rest = after_sign(clause.rest, Sign::CloseSquare).ok_or(Unread::Absent)?;
        let tree = Expr::WithClause {
            operand: operand.tree,
            clause: Box::new(self.alloc, clause.tree)?,
        };
        node(self.alloc, tree, spare.min(clause.spare), rest)
    }

    #[tactic(auto, unfolding(vtl_grammar::specs::ReadExpressions::postfix_step))]
    fn postfix_turn<'t>(&self, operand: Read<'t, Box<Expr>>) -> Result<Turn<'t>, Unread>
        requires { Nests self.now.budget (F.pre self.now.read) (F.post self.now.read) }
        ensures { GetsTurn (postfix_step self.now.budget (read self.now.budget level.Expression) (got_of box_tree operand.entry)) (got_of box_tree operand.entry) result }
    {
        if let Some(after) = after_sign(operand.rest, Sign::OpenSquare) {
            return Ok(Turn::More(self.clause_behind(operand, after)?));
        }
        if let Some(after) = after_sign(operand.rest, Sign::Hash) {
            return Ok(Turn::More(member_behind(self.alloc, operand, after)?));
        }
        Ok(Turn::End(operand))
    }

    // The clauses and members after an operand.
    pub(crate) fn more_postfix<'t>(
        &self,
        operand: Read<'t, Box<Expr>>,
    ) -> Result<Read<'t, Box<Expr>>, Unread>
        requires { Nests self.now.budget (F.pre self.now.read) (F.post self.now.read) }
        ensures { GetsBy box_tree (in_turns (postfix_step self.now.budget (read self.now.budget level.Expression)) (length (kinds operand.entry.rest.now)) (got_of box_tree operand.entry)) result }
    {
        let tokens = operand.rest;
        let mut read = operand;
        for _ in tokens {
            match self.postfix_turn(read)? {
                Turn::More(next) => read = next,
                Turn::End(last) => return Ok(last),
            }
        }
        Ok(read)
    }

    // An operator and its right operand after a left one.
    #[tactic(auto, using(crate::proofs::Views::views), unfolding(vtl_grammar::specs::ReadExpressions::operand_behind))]
    fn operand_behind<'t>(
        &self,
        right: Level,
        left: Read<'t, Box<Expr>>,
        op: BinaryOp,
        after: &'t [Token],
    ) -> Result<Read<'t, Box<Expr>>, Unread>
        requires { Nests self.now.budget (F.pre self.now.read) (F.post self.now.read) }
        ensures { GetsBy box_tree (operand_behind (read self.now.budget right) (got_of box_tree left.entry) op (kinds after.now)) result }
    {
        let spare = around(left.spare)?;
        let right = (self.read)(right, after)?;
        let tree = Expr::Binary {
            left: left.tree,
            op,
            right: right.tree,
        };
        node(self.alloc, tree, spare.min(right.spare), right.rest)
    }

    #[tactic(auto, unfolding(vtl_grammar::specs::ReadExpressions::operand_step))]
    fn operand_turn<'t>(
        &self,
        level: Level,
        right: Level,
        left: Read<'t, Box<Expr>>,
    ) -> Result<Turn<'t>, Unread>
        requires { Nests self.now.budget (F.pre self.now.read) (F.post self.now.read) }
        ensures { GetsTurn (operand_step level (read self.now.budget right) (got_of box_tree left.entry)) (got_of box_tree left.entry) result }
    {
        if let Some(Front { part, rest }) = operator(level, left.rest) {
            return Ok(Turn::More(self.operand_behind(right, left, part, rest)?));
        }
        if let Some(Front { part, rest }) = membership(level, left.rest) {
            return Ok(Turn::More(set_behind(self.alloc, left, part, rest)?));
        }
        Ok(Turn::End(left))
    }

    // The operators of a level after an operand, each with a right operand.
    pub(crate) fn more_operands<'t>(
        &self,
        level: Level,
        right: Level,
        left: Read<'t, Box<Expr>>,
    ) -> Result<Read<'t, Box<Expr>>, Unread>
        requires { Nests self.now.budget (F.pre self.now.read) (F.post self.now.read) }
        ensures { GetsBy box_tree (in_turns (operand_step level (read self.now.budget right)) (length (kinds left.entry.rest.now)) (got_of box_tree left.entry)) result }
    {
        let tokens = left.rest;
        let mut read = left;
        for _ in tokens {
            match self.operand_turn(level, right, read)? {
                Turn::More(next) => read = next,
                Turn::End(last) => return Ok(last),
            }
        }
        Ok(read)
    }
}
