// Calls: what stands between the brackets.
ghost use Rattle.std.specs.Prelude.{◌≡◌, Some, None, MatchResult};
ghost use Rattle.std.specs.Option.{option_map};
ghost use Rattle.vtl_grammar.specs.Faults.{kinds};
ghost use Rattle.vtl_grammar.specs.ReadExpressions.{cast_call, check_call, check_datapoint_call, check_hierarchy_call, dataset_part, difference_call, exists_in_call, function_call, hierarchy_call, rank_call, read, set_op_call, shift_call, time_call, value_window_call};
ghost use Rattle.vtl_grammar.specs.Reading.{spared};
ghost use Rattle.vtl_grammar.specs.declared.levels.Level.TheVariants as level;
ghost use Rattle.read_expressions.specs.Reads.{GetsBy, Nests, box_tree};
ghost use Rattle.read_parts.specs.Fronts.{front_view, same};
ghost use Rattle.vtl_syntax.specs.Depth.{over_depth};

use crate::grammar::{Grammar, node};
use crate::reads::Read;
use read_parts::{
    Front, Unread, after_keyword, after_sign, cast_part, error_part, maybe_word, over_part,
    retain_part, rule_part, ruleset_part, shift_part, time_part,
};
use vtl_grammar::Level;
use vtl_lexer::{Keyword, Sign, Token};
use vtl_syntax::{
    Constant, DifferenceName, Expr, FunctionName, OverPart, SetOpName, ShiftName, TimeName,
    ValueWindowName,
};

// How deep the names of a window make it.
pub(crate) fn over_depth(over: &OverPart) -> usize
    ensures { result ≡ over_depth over.now }
{
    if over.partition.is_some() || over.order.is_some() {
        1
    } else {
        0
    }
}

// What is left of a budget below a depth.
pub(crate) fn spared(budget: usize, depth: usize) -> Result<usize, Unread>
    ensures { MatchResult result (λ rest. spared budget depth ≡ Some rest) (λ e. spared budget depth ≡ None) }
{
    budget.checked_sub(depth).ok_or(Unread::Absent)
}

// `dataset`, if it stands there.
fn dataset_part(tokens: &[Token]) -> Front<'_, bool>
    ensures { front_view same result ≡ dataset_part (kinds tokens.now) }
{
    match after_keyword(tokens, Keyword::Dataset) {
        Some(rest) => Front { part: true, rest },
        None => Front {
            part: false,
            rest: tokens,
        },
    }
}

impl<F: Fn(Level, &[Token]) -> Result<Read<'_, Box<Expr>>, Unread>> Grammar<F> {
    // `function(operands)`
    #[tactic(auto, using(crate::proofs::Views::views), unfolding(vtl_grammar::specs::ReadExpressions::function_call, vtl_grammar::specs::ReadExpressions::exps))]
    pub(crate) fn function_call<'t>(
        &self,
        function: FunctionName,
        tokens: &'t [Token],
    ) -> Result<Read<'t, Box<Expr>>, Unread>
        requires { Nests self.now.budget (F.pre self.now.read) (F.post self.now.read) }
        ensures { GetsBy box_tree (function_call (read self.now.budget level.Expression) function (kinds tokens.now)) result }
    {
        let operands = self.list(tokens)?;
        let tree = Expr::Function {
            function,
            operands: operands.tree,
        };
        node(self.alloc, tree, operands.spare, operands.rest)
    }

    // `operator(operands)` with two operands at least
    #[tactic(auto, using(crate::proofs::Views::views), unfolding(vtl_grammar::specs::ReadExpressions::set_op_call, vtl_grammar::specs::ReadExpressions::exps))]
    pub(crate) fn set_op_call<'t>(
        &self,
        operator: SetOpName,
        tokens: &'t [Token],
    ) -> Result<Read<'t, Box<Expr>>, Unread>
        requires { Nests self.now.budget (F.pre self.now.read) (F.post self.now.read) }
        ensures { GetsBy box_tree (set_op_call (read self.now.budget level.Expression) operator (kinds tokens.now)) result }
    {
        let operands = self.list(tokens)?;
        if operands.tree.len() < 2 {
            return Err(Unread::Absent);
        }
        let tree = Expr::SetOp {
            operator,
            operands: operands.tree,
        };
        node(self.alloc, tree, operands.spare, operands.rest)
    }

    // `function(operand over)`
    #[tactic(auto, using(crate::proofs::Views::views), unfolding(vtl_grammar::specs::ReadExpressions::value_window_call))]
    pub(crate) fn value_window_call<'t>(
        &self,
        function: ValueWindowName,
        tokens: &'t [Token],
    ) -> Result<Read<'t, Box<Expr>>, Unread>
        requires { Nests self.now.budget (F.pre self.now.read) (F.post self.now.read) }
        ensures { GetsBy box_tree (value_window_call (read self.now.budget level.Expression) function (kinds tokens.now)) result }
    {
        let operand = (self.read)(Level::Expression, tokens)?;
        let over = over_part(self.alloc, operand.rest)?;
        let tree = Expr::ValueWindow {
            function,
            operand: operand.tree,
            over: over.part,
        };
        node(self.alloc, tree, operand.spare, over.rest)
    }

    // `function(operand, points, default over)`
    #[tactic(auto, using(crate::proofs::Views::views), unfolding(vtl_grammar::specs::ReadExpressions::shift_call))]
    pub(crate) fn shift_call<'t>(
        &self,
        function: ShiftName,
        tokens: &'t [Token],
    ) -> Result<Read<'t, Box<Expr>>, Unread>
        requires { Nests self.now.budget (F.pre self.now.read) (F.post self.now.read) }
        ensures { GetsBy box_tree (shift_call (read self.now.budget level.Expression) function (kinds tokens.now)) result }
    {
        let operand = (self.read)(Level::Expression, tokens)?;
        let shift = shift_part(operand.rest)?;
        let over = over_part(self.alloc, shift.rest)?;
        let (points, default) = shift.part;
        let tree = Expr::Shift {
            function,
            operand: operand.tree,
            points,
            default,
            over: over.part,
        };
        node(self.alloc, tree, operand.spare, over.rest)
    }

    // `rank(over)`
    #[tactic(auto, using(crate::proofs::Views::views), unfolding(vtl_grammar::specs::ReadExpressions::rank_call))]
    pub(crate) fn rank_call<'t>(&self, tokens: &'t [Token]) -> Result<Read<'t, Box<Expr>>, Unread>
        requires { Nests self.now.budget (F.pre self.now.read) (F.post self.now.read) }
        ensures { GetsBy box_tree (rank_call self.now.budget (kinds tokens.now)) result }
    {
        let over = over_part(self.alloc, tokens)?;
        let spare = spared(self.budget, over_depth(&over.part))?;
        node(self.alloc, Expr::Rank(over.part), spare, over.rest)
    }

    // `operator(left, right)`
    #[tactic(auto, using(crate::proofs::Views::views), unfolding(vtl_grammar::specs::ReadExpressions::difference_call, vtl_grammar::specs::ReadExpressions::two_exps))]
    pub(crate) fn difference_call<'t>(
        &self,
        operator: DifferenceName,
        tokens: &'t [Token],
    ) -> Result<Read<'t, Box<Expr>>, Unread>
        requires { Nests self.now.budget (F.pre self.now.read) (F.post self.now.read) }
        ensures { GetsBy box_tree (difference_call (read self.now.budget level.Expression) operator (kinds tokens.now)) result }
    {
        let left = (self.read)(Level::Expression, tokens)?;
        let after = after_sign(left.rest, Sign::Comma).ok_or(Unread::Absent)?;
        let right = (self.read)(Level::Expression, after)?;
        let tree = Expr::Difference {
            operator,
            left: left.tree,
            right: right.tree,
        };
        node(self.alloc, tree, left.spare.min(right.spare), right.rest)
    }

    // `exists_in(left, right, retain)`
    #[tactic(auto, using(crate::proofs::Views::views), unfolding(vtl_grammar::specs::ReadExpressions::exists_in_call, vtl_grammar::specs::ReadExpressions::two_exps))]
    pub(crate) fn exists_in_call<'t>(
        &self,
        tokens: &'t [Token],
    ) -> Result<Read<'t, Box<Expr>>, Unread>
        requires { Nests self.now.budget (F.pre self.now.read) (F.post self.now.read) }
        ensures { GetsBy box_tree (exists_in_call (read self.now.budget level.Expression) (kinds tokens.now)) result }
    {
        let left = (self.read)(Level::Expression, tokens)?;
        let after = after_sign(left.rest, Sign::Comma).ok_or(Unread::Absent)?;
        let right = (self.read)(Level::Expression, after)?;
        let retain = retain_part(right.rest)?;
        let tree = Expr::ExistsIn {
            left: left.tree,
            right: right.tree,
            retain: retain.part,
        };
        node(self.alloc, tree, left.spare.min(right.spare), retain.rest)
    }

    // `operator(operand ..)`, with a time operator
    #[tactic(auto, using(crate::proofs::Views::views), unfolding(vtl_grammar::specs::ReadExpressions::time_call))]
    pub(crate) fn time_call<'t>(
        &self,
        name: TimeName,
        tokens: &'t [Token],
    ) -> Result<Read<'t, Box<Expr>>, Unread>
        requires { Nests self.now.budget (F.pre self.now.read) (F.post self.now.read) }
        ensures { GetsBy box_tree (time_call (read self.now.budget level.Expression) name (kinds tokens.now)) result }
    {
        let operand = (self.read)(Level::Expression, tokens)?;
        let behind = time_part(name, operand.rest)?;
        let tree = Expr::Time {
            operand: operand.tree,
            call: behind.part,
        };
        node(self.alloc, tree, operand.spare, behind.rest)
    }

    // `check(operand error imbalance expression output)`
    #[tactic(auto, using(crate::proofs::Views::views), unfolding(vtl_grammar::specs::ReadExpressions::check_call))]
    pub(crate) fn check_call<'t>(&self, tokens: &'t [Token]) -> Result<Read<'t, Box<Expr>>, Unread>
        requires { Nests self.now.budget (F.pre self.now.read) (F.post self.now.read) }
        ensures { GetsBy box_tree (check_call self.now.budget (read self.now.budget level.Expression) (kinds tokens.now)) result }
    {
        let operand = (self.read)(Level::Expression, tokens)?;
        let error = error_part(operand.rest)?;
        let imbalance = self.maybe_after(Keyword::Imbalance, error.rest)?;
        let output = maybe_word(imbalance.rest);
        let tree = Expr::Check {
            operand: operand.tree,
            error: error.part,
            imbalance: imbalance.tree,
            output: output.part,
        };
        node(
            self.alloc,
            tree,
            operand.spare.min(imbalance.spare),
            output.rest,
        )
    }

    // `check_datapoint(operand, ruleset output)`
    #[tactic(auto, using(crate::proofs::Views::views), unfolding(vtl_grammar::specs::ReadExpressions::check_datapoint_call))]
    pub(crate) fn check_datapoint_call<'t>(
        &self,
        tokens: &'t [Token],
    ) -> Result<Read<'t, Box<Expr>>, Unread>
        requires { Nests self.now.budget (F.pre self.now.read) (F.post self.now.read) }
        ensures { GetsBy box_tree (check_datapoint_call (read self.now.budget level.Expression) (kinds tokens.now)) result }
    {
        let operand = (self.read)(Level::Expression, tokens)?;
        let ruleset = ruleset_part(operand.rest)?;
        let output = maybe_word(ruleset.rest);
        let tree = Expr::CheckDatapoint {
            operand: operand.tree,
            ruleset: ruleset.part,
            output: output.part,
        };
        node(self.alloc, tree, operand.spare, output.rest)
    }

    // `check_hierarchy(operand, ruleset rule component mode dataset output)`
    #[tactic(auto, using(crate::proofs::Views::views), unfolding(vtl_grammar::specs::ReadExpressions::check_hierarchy_call))]
    pub(crate) fn check_hierarchy_call<'t>(
        &self,
        tokens: &'t [Token],
    ) -> Result<Read<'t, Box<Expr>>, Unread>
        requires { Nests self.now.budget (F.pre self.now.read) (F.post self.now.read) }
        ensures { GetsBy box_tree (check_hierarchy_call (read self.now.budget level.Expression) (kinds tokens.now)) result }
    {
        let operand = (self.read)(Level::Expression, tokens)?;
        let ruleset = ruleset_part(operand.rest)?;
        let rule = rule_part(ruleset.rest)?;
        let mode = maybe_word(rule.rest);
        let dataset = dataset_part(mode.rest);
        let output = maybe_word(dataset.rest);
        let tree = Expr::CheckHierarchy {
            operand: operand.tree,
            ruleset: ruleset.part,
            rule: rule.part,
            mode: mode.part,
            dataset: dataset.part,
            output: output.part,
        };
        node(self.alloc, tree, operand.spare, output.rest)
    }

    // `hierarchy(operand, ruleset rule component mode input output)`
    #[tactic(auto, using(crate::proofs::Views::views), unfolding(vtl_grammar::specs::ReadExpressions::hierarchy_call))]
    pub(crate) fn hierarchy_call<'t>(
        &self,
        tokens: &'t [Token],
    ) -> Result<Read<'t, Box<Expr>>, Unread>
        requires { Nests self.now.budget (F.pre self.now.read) (F.post self.now.read) }
        ensures { GetsBy box_tree (hierarchy_call (read self.now.budget level.Expression) (kinds tokens.now)) result }
    {
        let operand = (self.read)(Level::Expression, tokens)?;
        let ruleset = ruleset_part(operand.rest)?;
        let rule = rule_part(ruleset.rest)?;
        let mode = maybe_word(rule.rest);
        let input = maybe_word(mode.rest);
        let output = maybe_word(input.rest);
        let tree = Expr::Hierarchy {
            operand: operand.tree,
            ruleset: ruleset.part,
            rule: rule.part,
            mode: mode.part,
            input: input.part,
            output: output.part,
        };
        node(self.alloc, tree, operand.spare, output.rest)
    }

    // `cast(text, kind)`
    #[tactic(auto, using(crate::proofs::Views::views), unfolding(vtl_grammar::specs::ReadExpressions::cast_call))]
    pub(crate) fn cast_call<'t>(&self, tokens: &'t [Token]) -> Result<Read<'t, Box<Expr>>, Unread>
        requires { Nests self.now.budget (F.pre self.now.read) (F.post self.now.read) }
        ensures { GetsBy box_tree (cast_call self.now.budget (kinds tokens.now)) result }
    {
        let cast = cast_part(tokens)?;
        let (text, kind) = cast.part;
        let tree = Expr::Constant(Constant::Cast { text, kind });
        node(self.alloc, tree, self.budget, cast.rest)
    }
}
