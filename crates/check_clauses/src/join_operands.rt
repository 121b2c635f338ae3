// The operands of a join, one after another.
ghost use Rattle.std.specs.Prelude.{◌≡◌, OnErr, map};
ghost use Rattle.vtl_tree.specs.NodeView.{operand_tree};
ghost use Rattle.check_faults.specs.Answers.{Answers};
ghost use Rattle.vtl_syntax.specs.View.{expr_tree};
ghost use Rattle.check_operators.specs.Typed.{typed_tree};
ghost use Rattle.vtl_tree.specs.Names.{is_among};
ghost use Rattle.check_clauses.specs.JoinOperands.{alias_of, aliases_in, new_alias, operand_in, operands_in, own_alias, with_part};
ghost use Rattle.check_clauses.specs.JoinView.{operands_view, part_view, parts_view};
ghost use Rattle.check_clauses.specs.TargetsView.{AnswersLeft};

use check_faults::{Rule, TypeErr, broken};
use check_operators::Typed;
use std::alloc::Global;
use vtl_syntax::{Comp, Expr};
use vtl_text::Txt;
use vtl_tree::JoinOperand;

/// An operand of a join that is typed, with its alias.
#[derive(Drop)]
pub struct Part {
    /// The operand.
    pub operand: Typed,
    /// Its alias.
    pub alias: Txt,
}

fn own_alias(e: &Expr) -> Result<&Txt, TypeErr>
    ensures { Answers (λ alias. alias.now) result (own_alias (expr_tree e.now)) }
{
    match e {
        Expr::Component(Comp::Name(name)) => Ok(name),
        _ => Err(TypeErr::Broken(Rule::JoinMisuse)),
    }
}

fn alias_of<'a>(e: &'a Expr, alias: &'a Option<Txt>) -> Result<&'a Txt, TypeErr>
    ensures { Answers (λ alias. alias.now) result (alias_of (expr_tree e.now) alias.now) }
{
    match alias {
        Some(alias) => Ok(alias),
        None => own_alias(e),
    }
}

fn is_alias(alias: &Txt, done: &[Part]) -> bool
    ensures { result ≡ is_among alias.now (aliases_in (map part_view done.now)) }
{
    for part in done {
        if part.alias == *alias {
            return true;
        }
    }
    false
}

// The alias of one more operand after others.
fn new_alias(done: &[Part], written: &Expr, alias: &Option<Txt>) -> Result<Txt, TypeErr>
    ensures { Answers (λ alias. alias) result (new_alias (map part_view done.now) (expr_tree written.now) alias.now) }
{
    let alias = alias_of(written, alias)?;
    broken(Rule::RepeatedName, is_alias(alias, done))?;
    Ok(alias.share()?)
}

/// One more operand after others. It breaks `JoinMisuse` where it has no alias and is no plain name, and `RepeatedName`
/// where an operand before it has its alias. If it fails, the others are left as they were.
#[tactic(auto, unfolding(crate::specs::JoinOperands::with_part))]
pub fn push_part(
    done: &mut Vec<Part>,
    written: &Expr,
    alias: &Option<Txt>,
    operand: Typed,
) -> Result<(), TypeErr>
    ensures typing { AnswersLeft parts_view result done.new (with_part (parts_view done.old) (expr_tree written.now) alias.now (typed_tree operand)) }
    ensures err { OnErr result (done.new.items ≡ done.old.items) }
{
    let alias = new_alias(done, written, alias)?;
    done.push(Part { operand, alias })?;
    Ok(())
}

// A part as an operand: a value breaks `DatasetOrValue`.
fn operand_of(part: Part) -> Result<JoinOperand, TypeErr>
    ensures { Answers operand_tree result (operand_in (part_view part)) }
{
    let Part { operand, alias } = part;
    let node = Box::into_inner(operand.dataset()?);
    Ok(JoinOperand { node, alias })
}

/// The operands, which all have to be data sets.
#[tactic(auto, using(crate::proofs::OperandLemmas::behind_none))]
pub fn operands(alloc: Global, parts: Vec<Part>) -> Result<Vec<JoinOperand>, TypeErr>
    ensures { Answers operands_view result (operands_in (parts_view parts)) }
{
    let mut operands = Vec::new(alloc);
    for part in parts {
        let operand = operand_of(part)?;
        operands.push(operand)?;
    }
    Ok(operands)
}
