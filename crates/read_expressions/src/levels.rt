// The places of the grammar: what may stand at each.
ghost use Rattle.std.specs.Prelude.{◌≡◌, Some, None, MatchOption};
ghost use Rattle.vtl_grammar.specs.Faults.{kinds};
ghost use Rattle.vtl_grammar.specs.ReadExpressions.{add_at, and_at, bracketed, call, choice, choice_or, closed, compare_at, formed, leaf_at, multiply_at, or_at, postfix, primary, read, read_level, unary_at};
ghost use Rattle.vtl_grammar.specs.Reading.{word};
ghost use Rattle.vtl_grammar.specs.declared.levels.Level.TheVariants as level;
ghost use Rattle.read_expressions.specs.Reads.{GetsBy, Nests, box_tree, got_of};
ghost use Rattle.read_parts.specs.Fronts.{ReadsBy};
ghost use Rattle.vtl_syntax.specs.View.{expr_tree};

use crate::grammar::{Grammar, node};
use crate::reads::Read;
use read_parts::{Front, Unread, after_keyword, after_sign, comp, constant, word};
use vtl_grammar::{CallForm, Level};
use vtl_lexer::{Keyword, Sign, Token};
use vtl_syntax::{Expr, UnaryOp};

// A name or a constant alone.
fn leaf(tokens: &[Token]) -> Result<Front<'_, Expr>, Unread>
    ensures { ReadsBy expr_tree (word leaf_at (kinds tokens.now)) result }
{
    match comp(tokens) {
        Ok(front) => Ok(Front {
            part: Expr::Component(front.part),
            rest: front.rest,
        }),
        Err(Unread::Absent) => {
            let front = constant(tokens)?;
            Ok(Front {
                part: Expr::Constant(front.part),
                rest: front.rest,
            })
        }
        Err(Unread::OutOfMemory) => Err(Unread::OutOfMemory),
    }
}

// The closing bracket after what was read.
#[tactic(auto, unfolding(vtl_grammar::specs::ReadExpressions::closed))]
fn closed(read: Read<'_, Box<Expr>>) -> Result<Read<'_, Box<Expr>>, Unread>
    ensures { GetsBy box_tree (closed (got_of box_tree read.entry)) result }
{
    let rest = after_sign(read.rest, Sign::CloseBracket).ok_or(Unread::Absent)?;
    Ok(Read {
        tree: read.tree,
        spare: read.spare,
        rest,
    })
}

impl<F: Fn(Level, &[Token]) -> Result<Read<'_, Box<Expr>>, Unread>> Grammar<F> {
    // What stands between the brackets of a call
    #[tactic(auto, unfolding(vtl_grammar::specs::ReadExpressions::call))]
    fn call<'t>(&self, form: CallForm, tokens: &'t [Token]) -> Result<Read<'t, Box<Expr>>, Unread>
        requires { Nests self.now.budget (F.pre self.now.read) (F.post self.now.read) }
        ensures { GetsBy box_tree (call self.now.budget (read self.now.budget level.Expression) form (kinds tokens.now)) result }
    {
        match form {
            CallForm::Function(function) => self.function_call(function, tokens),
            CallForm::Aggregate(function) => self.aggregate_call(function, tokens),
            CallForm::ValueWindow(function) => self.value_window_call(function, tokens),
            CallForm::Shift(function) => self.shift_call(function, tokens),
            CallForm::Rank => self.rank_call(tokens),
            CallForm::SetOp(operator) => self.set_op_call(operator, tokens),
            CallForm::Difference(operator) => self.difference_call(operator, tokens),
            CallForm::ExistsIn => self.exists_in_call(tokens),
            CallForm::Time(name) => self.time_call(name, tokens),
            CallForm::Check => self.check_call(tokens),
            CallForm::CheckDatapoint => self.check_datapoint_call(tokens),
            CallForm::CheckHierarchy => self.check_hierarchy_call(tokens),
            CallForm::Hierarchy => self.hierarchy_call(tokens),
            CallForm::Join(kind) => self.join_call(kind, tokens),
            CallForm::Cast => self.cast_call(tokens),
        }
    }

    // What stands after an opening bracket
    #[tactic(auto, using(crate::proofs::Views::views), unfolding(vtl_grammar::specs::ReadExpressions::bracketed))]
    fn bracketed<'t>(&self, tokens: &'t [Token]) -> Result<Read<'t, Box<Expr>>, Unread>
        requires { Nests self.now.budget (F.pre self.now.read) (F.post self.now.read) }
        ensures { GetsBy box_tree (bracketed (read self.now.budget level.Expression) (kinds tokens.now)) result }
    {
        let inner = (self.read)(Level::Expression, tokens)?;
        closed(node(
            self.alloc,
            Expr::Brackets(inner.tree),
            inner.spare,
            inner.rest,
        )?)
    }

    // A call, a join or `cast`
    #[tactic(auto, unfolding(vtl_grammar::specs::ReadExpressions::formed))]
    fn formed<'t>(&self, tokens: &'t [Token]) -> Result<Read<'t, Box<Expr>>, Unread>
        requires { Nests self.now.budget (F.pre self.now.read) (F.post self.now.read) }
        ensures { GetsBy box_tree (formed self.now.budget (read self.now.budget level.Expression) (kinds tokens.now)) result }
    {
        let form = word(tokens).ok_or(Unread::Absent)?;
        let inner = after_sign(form.rest, Sign::OpenBracket).ok_or(Unread::Absent)?;
        closed(self.call(form.part, inner)?)
    }

    // A name, a constant, brackets or a call
    #[tactic(auto, unfolding(vtl_grammar::specs::ReadExpressions::primary))]
    pub(crate) fn primary<'t>(&self, tokens: &'t [Token]) -> Result<Read<'t, Box<Expr>>, Unread>
        requires { Nests self.now.budget (F.pre self.now.read) (F.post self.now.read) }
        ensures { GetsBy box_tree (primary self.now.budget (read self.now.budget level.Expression) (kinds tokens.now)) result }
    {
        match leaf(tokens) {
            Ok(front) => node(self.alloc, front.part, self.budget, front.rest),
            Err(Unread::Absent) => match after_sign(tokens, Sign::OpenBracket) {
                Some(after) => self.bracketed(after),
                None => self.formed(tokens),
            },
            Err(Unread::OutOfMemory) => Err(Unread::OutOfMemory),
        }
    }

    // What follows `if`
    #[tactic(auto, using(crate::proofs::Views::views), unfolding(vtl_grammar::specs::ReadExpressions::choice))]
    fn choice<'t>(&self, tokens: &'t [Token]) -> Result<Read<'t, Box<Expr>>, Unread>
        requires { Nests self.now.budget (F.pre self.now.read) (F.post self.now.read) }
        ensures { GetsBy box_tree (choice (read self.now.budget level.Expression) (kinds tokens.now)) result }
    {
        let condition = (self.read)(Level::Expression, tokens)?;
        let after = after_keyword(condition.rest, Keyword::Then).ok_or(Unread::Absent)?;
        let then = (self.read)(Level::Expression, after)?;
        let after = after_keyword(then.rest, Keyword::Else).ok_or(Unread::Absent)?;
        let other = (self.read)(Level::Expression, after)?;
        let tree = Expr::If {
            condition: condition.tree,
            then: then.tree,
            other: other.tree,
        };
        let spare = condition.spare.min(then.spare.min(other.spare));
        node(self.alloc, tree, spare, other.rest)
    }

    // An operand with clauses and members after it
    #[tactic(auto, unfolding(vtl_grammar::specs::ReadExpressions::postfix))]
    fn postfix<'t>(&self, tokens: &'t [Token]) -> Result<Read<'t, Box<Expr>>, Unread>
        requires { Nests self.now.budget (F.pre self.now.read) (F.post self.now.read) }
        ensures { GetsBy box_tree (postfix self.now.budget (read self.now.budget level.Expression) (kinds tokens.now)) result }
    {
        let operand = self.primary(tokens)?;
        self.more_postfix(operand)
    }

    // An operand with signs or `not` before it
    #[tactic(auto, using(crate::proofs::Views::views), unfolding(vtl_grammar::specs::ReadExpressions::unary_at, vtl_grammar::specs::ReadExpressions::prefixed))]
    fn unary<'t>(&self, tokens: &'t [Token]) -> Result<Read<'t, Box<Expr>>, Unread>
        requires { Nests self.now.budget (F.pre self.now.read) (F.post self.now.read) }
        ensures { GetsBy box_tree (unary_at self.now.budget (read self.now.budget) (kinds tokens.now)) result }
    {
        let Some(op) = word(tokens) else {
            return self.postfix(tokens);
        };
        let operand = (self.read)(Level::Unary, op.rest)?;
        let tree = Expr::Unary {
            op: op.part,
            operand: operand.tree,
        };
        node(self.alloc, tree, operand.spare, operand.rest)
    }

    // `*` and `/`
    #[tactic(auto, unfolding(vtl_grammar::specs::ReadExpressions::multiply_at, vtl_grammar::specs::ReadExpressions::chain))]
    fn multiply<'t>(&self, tokens: &'t [Token]) -> Result<Read<'t, Box<Expr>>, Unread>
        requires { Nests self.now.budget (F.pre self.now.read) (F.post self.now.read) }
        ensures { GetsBy box_tree (multiply_at self.now.budget (read self.now.budget) (kinds tokens.now)) result }
    {
        let left = self.unary(tokens)?;
        self.more_operands(Level::Multiply, Level::Unary, left)
    }

    // `+`, `-` and `||`
    #[tactic(auto, unfolding(vtl_grammar::specs::ReadExpressions::add_at, vtl_grammar::specs::ReadExpressions::chain))]
    fn add<'t>(&self, tokens: &'t [Token]) -> Result<Read<'t, Box<Expr>>, Unread>
        requires { Nests self.now.budget (F.pre self.now.read) (F.post self.now.read) }
        ensures { GetsBy box_tree (add_at self.now.budget (read self.now.budget) (kinds tokens.now)) result }
    {
        let left = self.multiply(tokens)?;
        self.more_operands(Level::Add, Level::Multiply, left)
    }

    // Comparisons, `in` and `not_in`
    #[tactic(auto, unfolding(vtl_grammar::specs::ReadExpressions::compare_at, vtl_grammar::specs::ReadExpressions::chain))]
    fn compare<'t>(&self, tokens: &'t [Token]) -> Result<Read<'t, Box<Expr>>, Unread>
        requires { Nests self.now.budget (F.pre self.now.read) (F.post self.now.read) }
        ensures { GetsBy box_tree (compare_at self.now.budget (read self.now.budget) (kinds tokens.now)) result }
    {
        let left = self.add(tokens)?;
        self.more_operands(Level::Compare, Level::Add, left)
    }

    // `and`
    #[tactic(auto, unfolding(vtl_grammar::specs::ReadExpressions::and_at, vtl_grammar::specs::ReadExpressions::chain))]
    fn and<'t>(&self, tokens: &'t [Token]) -> Result<Read<'t, Box<Expr>>, Unread>
        requires { Nests self.now.budget (F.pre self.now.read) (F.post self.now.read) }
        ensures { GetsBy box_tree (and_at self.now.budget (read self.now.budget) (kinds tokens.now)) result }
    {
        let left = self.compare(tokens)?;
        self.more_operands(Level::And, Level::Compare, left)
    }

    // `or` and `xor`
    #[tactic(auto, unfolding(vtl_grammar::specs::ReadExpressions::or_at, vtl_grammar::specs::ReadExpressions::chain))]
    fn or<'t>(&self, tokens: &'t [Token]) -> Result<Read<'t, Box<Expr>>, Unread>
        requires { Nests self.now.budget (F.pre self.now.read) (F.post self.now.read) }
        ensures { GetsBy box_tree (or_at self.now.budget (read self.now.budget) (kinds tokens.now)) result }
    {
        let left = self.and(tokens)?;
        self.more_operands(Level::Or, Level::And, left)
    }

    // Any expression
    #[tactic(auto, unfolding(vtl_grammar::specs::ReadExpressions::choice_or))]
    fn expression<'t>(&self, tokens: &'t [Token]) -> Result<Read<'t, Box<Expr>>, Unread>
        requires { Nests self.now.budget (F.pre self.now.read) (F.post self.now.read) }
        ensures { GetsBy box_tree (choice_or (read self.now.budget level.Expression) (or_at self.now.budget (read self.now.budget)) (kinds tokens.now)) result }
    {
        match after_keyword(tokens, Keyword::If) {
            Some(after) => self.choice(after),
            None => self.or(tokens),
        }
    }

    // What may stand at a level.
    #[tactic(auto, unfolding(vtl_grammar::specs::ReadExpressions::read_level))]
    pub(crate) fn level<'t>(
        &self,
        level: Level,
        tokens: &'t [Token],
    ) -> Result<Read<'t, Box<Expr>>, Unread>
        requires { Nests self.now.budget (F.pre self.now.read) (F.post self.now.read) }
        ensures { GetsBy box_tree (read_level self.now.budget (read self.now.budget) level (kinds tokens.now)) result }
    {
        match level {
            Level::Primary => self.primary(tokens),
            Level::Postfix => self.postfix(tokens),
            Level::Unary => self.unary(tokens),
            Level::Multiply => self.multiply(tokens),
            Level::Add => self.add(tokens),
            Level::Compare => self.compare(tokens),
            Level::And => self.and(tokens),
            Level::Or => self.or(tokens),
            Level::Expression => self.expression(tokens),
        }
    }
}
