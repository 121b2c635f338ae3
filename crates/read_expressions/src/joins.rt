// Joins.
ghost use Rattle.std.specs.Prelude.{◌≤◌, length};
ghost use Rattle.vtl_grammar.specs.Faults.{kinds};
ghost use Rattle.vtl_grammar.specs.ReadExpressions.{join_body, join_call, read};
ghost use Rattle.vtl_grammar.specs.declared.levels.Level.TheVariants as level;
ghost use Rattle.read_expressions.specs.Reads.{GetsBy, Nests, box_tree, got_of, list_view};
ghost use Rattle.vtl_syntax.specs.View.{part_tree};

use crate::grammar::{Grammar, node};
use crate::reads::Read;
use read_parts::{Unread, maybe_keeping, maybe_renames, using_part};
use vtl_grammar::Level;
use vtl_lexer::{Keyword, Token};
use vtl_syntax::{Expr, JoinKind, JoinPart};

impl<F: Fn(Level, &[Token]) -> Result<Read<'_, Box<Expr>>, Unread>> Grammar<F> {
    // The body of a join after its operands
    #[tactic(auto, using(crate::proofs::Views::views), unfolding(vtl_grammar::specs::ReadExpressions::join_body))]
    fn join_body<'t>(
        &self,
        kind: JoinKind,
        operands: Read<'t, Vec<JoinPart>>,
    ) -> Result<Read<'t, Box<Expr>>, Unread>
        requires { Nests self.now.budget (F.pre self.now.read) (F.post self.now.read) }
        ensures { GetsBy box_tree (join_body self.now.budget (read self.now.budget level.Expression) kind (got_of (list_view part_tree) operands.entry)) result }
    {
        let using = using_part(self.alloc, operands.rest)?;
        let filter = self.maybe_after(Keyword::Filter, using.rest)?;
        let targets = self.targets_part(filter.rest)?;
        let keeping = maybe_keeping(self.alloc, targets.rest)?;
        let renames = maybe_renames(self.alloc, keeping.rest)?;
        let tree = Expr::Join {
            kind,
            operands: operands.tree,
            using: using.part,
            filter: filter.tree,
            targets: targets.tree,
            keeping: keeping.part,
            renames: renames.part,
        };
        let spare = operands.spare.min(filter.spare.min(targets.spare));
        node(self.alloc, tree, spare, renames.rest)
    }

    // A join of two operands at least
    #[tactic(auto, using(crate::proofs::Views::views), unfolding(vtl_grammar::specs::ReadExpressions::join_call, vtl_grammar::specs::ReadExpressions::join_parts))]
    pub(crate) fn join_call<'t>(
        &self,
        kind: JoinKind,
        tokens: &'t [Token],
    ) -> Result<Read<'t, Box<Expr>>, Unread>
        requires { Nests self.now.budget (F.pre self.now.read) (F.post self.now.read) }
        ensures { GetsBy box_tree (join_call self.now.budget (read self.now.budget level.Expression) kind (kinds tokens.now)) result }
    {
        let operands = self.list(tokens)?;
        if operands.tree.len() < 2 {
            return Err(Unread::Absent);
        }
        self.join_body(kind, operands)
    }
}
