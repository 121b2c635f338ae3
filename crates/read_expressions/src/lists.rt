// Lists of parts that hold expressions, with a comma between them.
ghost use Rattle.std.specs.Prelude.{◌≡◌, length, map};
ghost use Rattle.vtl_grammar.specs.Faults.{kinds};
ghost use Rattle.vtl_grammar.specs.ReadExpressions.{calc_head, read};
ghost use Rattle.vtl_grammar.specs.Reading.{got_listed, more_got};
ghost use Rattle.vtl_grammar.specs.declared.levels.Level.TheVariants as level;
ghost use Rattle.read_expressions.specs.Reads.{GetsBy, Nests, box_tree, list_view};
ghost use Rattle.read_parts.specs.Fronts.{ReadsAs};
ghost use Rattle.vtl_syntax.specs.View.{calc_tree};

use crate::grammar::Grammar;
use crate::reads::Read;
use read_parts::{Front, Unread, after_sign, alias_part, comp, maybe_word};
use vtl_grammar::Level;
use vtl_lexer::{Sign, Token};
use vtl_syntax::{CalcPart, Comp, Expr, JoinPart, WrittenRole};

// A part that holds an expression and stands in lists.
pub(crate) trait Nested: Drop {
    ghost use Rattle.vtl_grammar.specs.Faults.{kinds};
    ghost use Rattle.vtl_grammar.specs.ReadExpressions.{read};
    ghost use Rattle.vtl_grammar.specs.Reading.{Gets};
    ghost use Rattle.vtl_grammar.specs.declared.levels.Level.TheVariants as level;
    ghost use Rattle.read_expressions.specs.Reads.{GetsBy, Nests};
    ghost use Rattle.vtl_syntax.specs.Trees.{Exp};

    // Its tree in definitions, and how the grammar reads it.
    ghost Tree: { Type 0 };

    ghost view: { Self → Tree };

    ghost reads: { Gets Exp → Gets Tree };

    fn read<'t, F: Fn(Level, &[Token]) -> Result<Read<'_, Box<Expr>>, Unread>>(
        grammar: &Grammar<F>,
        tokens: &'t [Token],
    ) -> Result<Read<'t, Self>, Unread>
        requires { Nests grammar.now.budget (F.pre grammar.now.read) (F.post grammar.now.read) }
        ensures { GetsBy view (reads (read grammar.now.budget level.Expression) (kinds tokens.now)) result };
}

impl Nested for Expr {
    ghost use Rattle.vtl_syntax.specs.Trees.{Exp};
    ghost use Rattle.vtl_syntax.specs.View.{expr_tree};

    ghost Tree = { Exp };

    ghost view = { expr_tree };

    ghost reads = { λ part. part };

    fn read<'t, F: Fn(Level, &[Token]) -> Result<Read<'_, Box<Expr>>, Unread>>(
        grammar: &Grammar<F>,
        tokens: &'t [Token],
    ) -> Result<Read<'t, Expr>, Unread> {
        let Read { tree, spare, rest } = (grammar.read)(Level::Expression, tokens)?;
        Ok(Read {
            tree: Box::into_inner(tree),
            spare,
            rest,
        })
    }
}

// `role component :=`
#[tactic(auto, unfolding(vtl_grammar::specs::ReadExpressions::calc_head))]
fn calc_head(tokens: &[Token]) -> Result<Front<'_, (Option<WrittenRole>, Comp)>, Unread>
    ensures { ReadsAs (calc_head (kinds tokens.now)) result }
{
    let role = maybe_word(tokens);
    let component = comp(role.rest)?;
    let rest = after_sign(component.rest, Sign::Assign).ok_or(Unread::Absent)?;
    Ok(Front {
        part: (role.part, component.part),
        rest,
    })
}

// A target, from what stands before `:=` and its value.
#[tactic(auto, using(crate::proofs::Views::views))]
fn calc_part(head: (Option<WrittenRole>, Comp), value: Read<'_, Box<Expr>>) -> Read<'_, CalcPart>
    ensures tree { calc_tree result.tree ≡ record { role = head.0; component = head.1; value = box_tree value.entry.tree } }
    ensures spare { result.spare ≡ value.entry.spare }
    ensures rest { result.rest.now ≡ value.entry.rest.now }
{
    Read {
        tree: CalcPart {
            role: head.0,
            component: head.1,
            value: value.tree,
        },
        spare: value.spare,
        rest: value.rest,
    }
}

impl Nested for CalcPart {
    ghost use Rattle.vtl_grammar.specs.ReadExpressions.{calc_part};
    ghost use Rattle.vtl_syntax.specs.Trees.{CalcTree};
    ghost use Rattle.vtl_syntax.specs.View.{calc_tree};

    ghost Tree = { CalcTree };

    ghost view = { calc_tree };

    ghost reads = { calc_part };

    #[tactic(auto, using(crate::proofs::Views::views), unfolding(vtl_grammar::specs::ReadExpressions::calc_part))]
    fn read<'t, F: Fn(Level, &[Token]) -> Result<Read<'_, Box<Expr>>, Unread>>(
        grammar: &Grammar<F>,
        tokens: &'t [Token],
    ) -> Result<Read<'t, CalcPart>, Unread> {
        let head = calc_head(tokens)?;
        let value = (grammar.read)(Level::Expression, head.rest)?;
        Ok(calc_part(head.part, value))
    }
}

impl Nested for JoinPart {
    ghost use Rattle.vtl_grammar.specs.ReadExpressions.{join_part};
    ghost use Rattle.vtl_syntax.specs.Trees.{PartTree};
    ghost use Rattle.vtl_syntax.specs.View.{part_tree};

    ghost Tree = { PartTree };

    ghost view = { part_tree };

    ghost reads = { join_part };

    #[tactic(auto, using(crate::proofs::Views::views), unfolding(vtl_grammar::specs::ReadExpressions::join_part))]
    fn read<'t, F: Fn(Level, &[Token]) -> Result<Read<'_, Box<Expr>>, Unread>>(
        grammar: &Grammar<F>,
        tokens: &'t [Token],
    ) -> Result<Read<'t, JoinPart>, Unread> {
        let operand = (grammar.read)(Level::Expression, tokens)?;
        let alias = alias_part(operand.rest)?;
        Ok(Read {
            tree: JoinPart {
                operand: operand.tree,
                alias: alias.part,
            },
            spare: operand.spare,
            rest: alias.rest,
        })
    }
}

impl<F: Fn(Level, &[Token]) -> Result<Read<'_, Box<Expr>>, Unread>> Grammar<F> {
    // One part, and those that follow it after commas.
    pub(crate) fn list<'t, P: Nested>(
        &self,
        tokens: &'t [Token],
    ) -> Result<Read<'t, Vec<P>>, Unread>
        requires { Nests self.now.budget (F.pre self.now.read) (F.post self.now.read) }
        ensures { GetsBy (list_view P.view) (got_listed (P.reads (read self.now.budget level.Expression)) (kinds tokens.now)) result }
    {
        let first = P::read(self, tokens)?;
        let mut items = Vec::new(self.alloc);
        items.push(first.tree)?;
        self.more(items, first.spare, first.rest)
    }

    // The parts after these, each after a comma.
    fn more<'t, P: Nested>(
        &self,
        mut items: Vec<P>,
        spare: usize,
        tokens: &'t [Token],
    ) -> Result<Read<'t, Vec<P>>, Unread>
        requires { Nests self.now.budget (F.pre self.now.read) (F.post self.now.read) }
        ensures { GetsBy (list_view P.view) (more_got (P.reads (read self.now.budget level.Expression)) (length (kinds tokens.now)) (map P.view items.items) spare (kinds tokens.now)) result }
    {
        let mut least = spare;
        let mut rest = tokens;
        for _ in tokens {
            let Some(after) = after_sign(rest, Sign::Comma) else {
                break;
            };
            let next = P::read(self, after)?;
            items.push(next.tree)?;
            least = least.min(next.spare);
            rest = next.rest;
        }
        Ok(Read {
            tree: items,
            spare: least,
            rest,
        })
    }
}
