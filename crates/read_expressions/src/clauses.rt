// Clauses, and what `calc` and `aggr` make.
ghost use Rattle.std.specs.Prelude.{◌≡◌};
ghost use Rattle.std.specs.Option.{option_map};
ghost use Rattle.vtl_grammar.specs.Faults.{kinds};
ghost use Rattle.vtl_grammar.specs.ReadExpressions.{aggr_targets, clause, name_clause, pivot_clause, read, targets_part};
ghost use Rattle.vtl_grammar.specs.declared.levels.Level.TheVariants as level;
ghost use Rattle.read_expressions.specs.Reads.{GetsBy, Nests};
ghost use Rattle.vtl_syntax.specs.View.{clause_tree, targets_tree};

use crate::grammar::Grammar;
use crate::reads::Read;
use read_parts::{
    Front, Unread, after_keyword, group_part, maybe_keeping, maybe_renames, sub_parts, two_comps,
};
use vtl_grammar::Level;
use vtl_lexer::{Keyword, Token};
use vtl_syntax::{Clause, Expr, Targets};

impl<F: Fn(Level, &[Token]) -> Result<Read<'_, Box<Expr>>, Unread>> Grammar<F> {
    // What follows `aggr`
    #[tactic(auto, using(crate::proofs::Views::views), unfolding(vtl_grammar::specs::ReadExpressions::aggr_targets, vtl_grammar::specs::ReadExpressions::calc_parts))]
    fn aggr_targets<'t>(&self, tokens: &'t [Token]) -> Result<Read<'t, Targets>, Unread>
        requires { Nests self.now.budget (F.pre self.now.read) (F.post self.now.read) }
        ensures { GetsBy targets_tree (aggr_targets self.now.budget (read self.now.budget level.Expression) (kinds tokens.now)) result }
    {
        let parts = self.list(tokens)?;
        let group = group_part(self.alloc, parts.rest)?;
        let having = self.maybe_after(Keyword::Having, group.rest)?;
        Ok(Read {
            tree: Targets::Aggr {
                parts: parts.tree,
                group: group.part,
                having: having.tree,
            },
            spare: parts.spare.min(having.spare),
            rest: having.rest,
        })
    }

    // `calc` or `aggr` with what it makes, if one stands there
    #[tactic(auto, using(crate::proofs::Views::views), unfolding(vtl_grammar::specs::ReadExpressions::targets_part, vtl_grammar::specs::ReadExpressions::calc_parts))]
    pub(crate) fn targets_part<'t>(
        &self,
        tokens: &'t [Token],
    ) -> Result<Read<'t, Option<Targets>>, Unread>
        requires { Nests self.now.budget (F.pre self.now.read) (F.post self.now.read) }
        ensures { GetsBy (option_map targets_tree) (targets_part self.now.budget (read self.now.budget level.Expression) (kinds tokens.now)) result }
    {
        if let Some(after) = after_keyword(tokens, Keyword::Calc) {
            let parts = self.list(after)?;
            return Ok(Read {
                tree: Some(Targets::Calc(parts.tree)),
                spare: parts.spare,
                rest: parts.rest,
            });
        }
        if let Some(after) = after_keyword(tokens, Keyword::Aggr) {
            let targets = self.aggr_targets(after)?;
            return Ok(Read {
                tree: Some(targets.tree),
                spare: targets.spare,
                rest: targets.rest,
            });
        }
        Ok(self.none(tokens))
    }

    // A clause that adds no depth.
    fn leaf_clause<'t>(&self, tree: Clause, rest: &'t [Token]) -> Read<'t, Clause>
        ensures tree { result.tree ≡ tree }
        ensures spare { result.spare ≡ self.now.budget }
        ensures rest { result.rest.now ≡ rest.now }
    {
        Read {
            tree,
            spare: self.budget,
            rest,
        }
    }

    // `pivot` or `unpivot`
    #[tactic(auto, using(crate::proofs::Views::views), unfolding(vtl_grammar::specs::ReadExpressions::pivot_clause))]
    fn pivot_clause<'t>(&self, tokens: &'t [Token]) -> Result<Read<'t, Clause>, Unread>
        ensures { GetsBy clause_tree (pivot_clause self.now.budget (kinds tokens.now)) result }
    {
        if let Some(after) = after_keyword(tokens, Keyword::Pivot) {
            let names = two_comps(after)?;
            let (identifier, measure) = names.part;
            return Ok(self.leaf_clause(
                Clause::Pivot {
                    identifier,
                    measure,
                },
                names.rest,
            ));
        }
        let after = after_keyword(tokens, Keyword::Unpivot).ok_or(Unread::Absent)?;
        let names = two_comps(after)?;
        let (identifier, measure) = names.part;
        Ok(self.leaf_clause(
            Clause::Unpivot {
                identifier,
                measure,
            },
            names.rest,
        ))
    }

    // A clause with names and literals alone
    #[tactic(auto, using(crate::proofs::Views::views), unfolding(vtl_grammar::specs::ReadExpressions::name_clause))]
    fn name_clause<'t>(&self, tokens: &'t [Token]) -> Result<Read<'t, Clause>, Unread>
        requires { Nests self.now.budget (F.pre self.now.read) (F.post self.now.read) }
        ensures { GetsBy clause_tree (name_clause self.now.budget (kinds tokens.now)) result }
    {
        let Front { part, rest } = maybe_keeping(self.alloc, tokens)?;
        if let Some(kept) = part {
            return Ok(self.leaf_clause(Clause::Keeping(kept), rest));
        }
        let Front { part, rest } = maybe_renames(self.alloc, tokens)?;
        if let Some(renames) = part {
            return Ok(self.leaf_clause(Clause::Rename(renames), rest));
        }
        if let Some(after) = after_keyword(tokens, Keyword::Sub) {
            let parts = sub_parts(self.alloc, after)?;
            return Ok(self.leaf_clause(Clause::Sub(parts.part), parts.rest));
        }
        self.pivot_clause(tokens)
    }

    // What stands between `[` and `]`
    #[tactic(auto, using(crate::proofs::Views::views), unfolding(vtl_grammar::specs::ReadExpressions::clause))]
    pub(crate) fn clause<'t>(&self, tokens: &'t [Token]) -> Result<Read<'t, Clause>, Unread>
        requires { Nests self.now.budget (F.pre self.now.read) (F.post self.now.read) }
        ensures { GetsBy clause_tree (clause self.now.budget (read self.now.budget level.Expression) (kinds tokens.now)) result }
    {
        let Read { tree, spare, rest } = self.maybe_after(Keyword::Filter, tokens)?;
        if let Some(condition) = tree {
            return Ok(Read {
                tree: Clause::Filter(condition),
                spare,
                rest,
            });
        }
        let Read { tree, spare, rest } = self.targets_part(tokens)?;
        if let Some(targets) = tree {
            return Ok(Read {
                tree: Clause::Targets(targets),
                spare,
                rest,
            });
        }
        self.name_clause(tokens)
    }
}
