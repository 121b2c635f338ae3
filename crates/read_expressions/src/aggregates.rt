// Optional expressions, and aggregates.
ghost use Rattle.std.specs.Prelude.{◌≡◌, Some};
ghost use Rattle.std.specs.Option.{option_map};
ghost use Rattle.vtl_grammar.specs.Faults.{kinds};
ghost use Rattle.vtl_grammar.specs.ReadExpressions.{aggregate_call, ends_operand, group_call, maybe_exp_after, maybe_operand, no_operand, over_call, read};
ghost use Rattle.vtl_grammar.specs.declared.levels.Level.TheVariants as level;
ghost use Rattle.vtl_lexer.specs.declared.keyword.Keyword.{Keyword};
ghost use Rattle.read_expressions.specs.Reads.{GetsBy, Nests, box_tree, got_of};
ghost use Rattle.vtl_syntax.specs.Depth.{group_depth};

use crate::calls::{over_depth, spared};
use crate::grammar::{Grammar, node};
use crate::reads::Read;
use read_parts::{Unread, after_keyword, group_part, next, over_part};
use vtl_grammar::Level;
use vtl_lexer::{Keyword, Sign, Token, TokenKind};
use vtl_syntax::{AggregateName, Expr, GroupPart};

// How deep the names of a grouping make it.
fn group_depth(group: &Option<GroupPart>) -> usize
    ensures { result ≡ group_depth group.now }
{
    match group {
        Some(_) => 1,
        None => 0,
    }
}

// No operand of an aggregate begins with the token.
fn ends_operand(kind: &TokenKind) -> bool
    ensures { result ≡ ends_operand kind.now }
{
    matches!(
        kind,
        TokenKind::Sign(Sign::CloseBracket)
            | TokenKind::Keyword(Keyword::Group | Keyword::Having | Keyword::Over)
    )
}

// No operand of an aggregate begins here.
fn no_operand(tokens: &[Token]) -> bool
    ensures { result ≡ no_operand (kinds tokens.now) }
{
    match next(tokens) {
        Some((first, _)) => ends_operand(first),
        None => true,
    }
}

impl<F: Fn(Level, &[Token]) -> Result<Read<'_, Box<Expr>>, Unread>> Grammar<F> {
    // `keyword expression`, if it stands there
    #[tactic(auto, unfolding(vtl_grammar::specs::ReadExpressions::maybe_exp_after))]
    pub(crate) fn maybe_after<'t>(
        &self,
        keyword: Keyword,
        tokens: &'t [Token],
    ) -> Result<Read<'t, Option<Box<Expr>>>, Unread>
        requires { Nests self.now.budget (F.pre self.now.read) (F.post self.now.read) }
        ensures { GetsBy (option_map box_tree) (maybe_exp_after self.now.budget (read self.now.budget level.Expression) keyword (kinds tokens.now)) result }
    {
        let Some(after) = after_keyword(tokens, keyword) else {
            return Ok(self.none(tokens));
        };
        let Read { tree, spare, rest } = (self.read)(Level::Expression, after)?;
        Ok(Read {
            tree: Some(tree),
            spare,
            rest,
        })
    }

    // The operand of an aggregate, where there is one
    #[tactic(auto, unfolding(vtl_grammar::specs::ReadExpressions::maybe_operand))]
    pub(crate) fn maybe_operand<'t>(
        &self,
        tokens: &'t [Token],
    ) -> Result<Read<'t, Option<Box<Expr>>>, Unread>
        requires { Nests self.now.budget (F.pre self.now.read) (F.post self.now.read) }
        ensures { GetsBy (option_map box_tree) (maybe_operand self.now.budget (read self.now.budget level.Expression) (kinds tokens.now)) result }
    {
        if no_operand(tokens) {
            return Ok(self.none(tokens));
        }
        let Read { tree, spare, rest } = (self.read)(Level::Expression, tokens)?;
        Ok(Read {
            tree: Some(tree),
            spare,
            rest,
        })
    }

    // A part that does not stand there.
    pub(crate) fn none<'t, T>(&self, tokens: &'t [Token]) -> Read<'t, Option<T>>
        ensures tree { result.tree ≡ None }
        ensures spare { result.spare ≡ self.now.budget }
        ensures rest { result.rest.now ≡ tokens.now }
    {
        Read {
            tree: None,
            spare: self.budget,
            rest: tokens,
        }
    }

    // An aggregate over a window, after its operand
    #[tactic(auto, using(crate::proofs::Views::views), unfolding(vtl_grammar::specs::ReadExpressions::over_call))]
    pub(crate) fn over_call<'t>(
        &self,
        function: AggregateName,
        operand: Read<'t, Option<Box<Expr>>>,
    ) -> Result<Read<'t, Box<Expr>>, Unread>
        requires { Nests self.now.budget (F.pre self.now.read) (F.post self.now.read) }
        ensures { GetsBy box_tree (over_call self.now.budget function (got_of (option_map box_tree) operand.entry)) result }
    {
        let over = over_part(self.alloc, operand.rest)?;
        let spare = spared(self.budget, over_depth(&over.part))?;
        let tree = Expr::AggregateOver {
            function,
            operand: operand.tree,
            over: over.part,
        };
        node(self.alloc, tree, operand.spare.min(spare), over.rest)
    }

    // An aggregate with its grouping, after its operand
    #[tactic(auto, using(crate::proofs::Views::views), unfolding(vtl_grammar::specs::ReadExpressions::group_call))]
    pub(crate) fn group_call<'t>(
        &self,
        function: AggregateName,
        operand: Read<'t, Option<Box<Expr>>>,
    ) -> Result<Read<'t, Box<Expr>>, Unread>
        requires { Nests self.now.budget (F.pre self.now.read) (F.post self.now.read) }
        ensures { GetsBy box_tree (group_call self.now.budget (read self.now.budget level.Expression) function (got_of (option_map box_tree) operand.entry)) result }
    {
        let group = group_part(self.alloc, operand.rest)?;
        let spare = spared(self.budget, group_depth(&group.part))?;
        let having = self.maybe_after(Keyword::Having, group.rest)?;
        let tree = Expr::Aggregate {
            function,
            operand: operand.tree,
            group: group.part,
            having: having.tree,
        };
        node(
            self.alloc,
            tree,
            operand.spare.min(spare.min(having.spare)),
            having.rest,
        )
    }

    // An aggregate
    #[tactic(auto, unfolding(vtl_grammar::specs::ReadExpressions::aggregate_call))]
    pub(crate) fn aggregate_call<'t>(
        &self,
        function: AggregateName,
        tokens: &'t [Token],
    ) -> Result<Read<'t, Box<Expr>>, Unread>
        requires { Nests self.now.budget (F.pre self.now.read) (F.post self.now.read) }
        ensures { GetsBy box_tree (aggregate_call self.now.budget (read self.now.budget level.Expression) function (kinds tokens.now)) result }
    {
        let operand = self.maybe_operand(tokens)?;
        match after_keyword(operand.rest, Keyword::Over) {
            Some(_) => self.over_call(function, operand),
            None => self.group_call(function, operand),
        }
    }
}
