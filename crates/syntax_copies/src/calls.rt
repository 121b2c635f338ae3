// Expressions that hold other parts, from copies of their operands and these parts.
ghost use Rattle.std.specs.Prelude.{◌≡◌, IfOk, map};
ghost use Rattle.std.specs.Option.{option_map};
ghost use Rattle.syntax_copies.specs.Trees.{box_tree, maybe_tree};
ghost use Rattle.vtl_syntax.specs.Trees as tree;
ghost use Rattle.vtl_syntax.specs.Trees.{maybe_targets, parts_of};
ghost use Rattle.vtl_syntax.specs.View.{part_tree, targets_tree};

use crate::part::Part;
use std::alloc::{AllocError, Global};
use vtl_syntax::{
    AggregateName, BasicOut, CheckOut, Comp, Constant, ErrorPart, Expr, GroupPart, HierInput,
    HierOut, JoinKind, JoinPart, Keeping, Literal, Mode, OverPart, RenamePart, ShiftName, Targets,
    TimeCall, ValueWindowName,
};
use vtl_text::{List, Txt};

pub(crate) fn in_set(
    alloc: Global,
    operand: Box<Expr>,
    negated: bool,
    literals: &List<Literal>,
) -> Result<Box<Expr>, AllocError>
    ensures { IfOk result (λ made. box_tree made ≡ tree.in_set (box_tree operand) negated literals.now) }
{
    let literals = literals.copy(alloc)?;
    let e = Expr::InSet {
        operand,
        negated,
        literals,
    };
    Ok(Box::new(alloc, e)?)
}

pub(crate) fn member(
    alloc: Global,
    operand: Box<Expr>,
    component: &Comp,
) -> Result<Box<Expr>, AllocError>
    ensures { IfOk result (λ made. box_tree made ≡ tree.member (box_tree operand) component.now) }
{
    let component = component.copy(alloc)?;
    Ok(Box::new(alloc, Expr::Member { operand, component })?)
}

pub(crate) fn component(alloc: Global, component: &Comp) -> Result<Box<Expr>, AllocError>
    ensures { IfOk result (λ made. box_tree made ≡ tree.component component.now) }
{
    Ok(Box::new(alloc, Expr::Component(component.copy(alloc)?))?)
}

pub(crate) fn constant(alloc: Global, constant: &Constant) -> Result<Box<Expr>, AllocError>
    ensures { IfOk result (λ made. box_tree made ≡ tree.constant constant.now) }
{
    Ok(Box::new(alloc, Expr::Constant(constant.copy(alloc)?))?)
}

pub(crate) fn aggregate(
    alloc: Global,
    function: AggregateName,
    operand: Option<Box<Expr>>,
    group: &Option<GroupPart>,
    having: Option<Box<Expr>>,
) -> Result<Box<Expr>, AllocError>
    ensures { IfOk result (λ made. box_tree made ≡ tree.aggregate function (maybe_tree operand) group.now (maybe_tree having)) }
{
    let group = group.copy(alloc)?;
    let e = Expr::Aggregate {
        function,
        operand,
        group,
        having,
    };
    Ok(Box::new(alloc, e)?)
}

pub(crate) fn aggregate_over(
    alloc: Global,
    function: AggregateName,
    operand: Option<Box<Expr>>,
    over: &OverPart,
) -> Result<Box<Expr>, AllocError>
    ensures { IfOk result (λ made. box_tree made ≡ tree.aggregate_over function (maybe_tree operand) over.now) }
{
    let over = over.copy(alloc)?;
    let e = Expr::AggregateOver {
        function,
        operand,
        over,
    };
    Ok(Box::new(alloc, e)?)
}

pub(crate) fn value_window(
    alloc: Global,
    function: ValueWindowName,
    operand: Box<Expr>,
    over: &OverPart,
) -> Result<Box<Expr>, AllocError>
    ensures { IfOk result (λ made. box_tree made ≡ tree.value_window function (box_tree operand) over.now) }
{
    let over = over.copy(alloc)?;
    let e = Expr::ValueWindow {
        function,
        operand,
        over,
    };
    Ok(Box::new(alloc, e)?)
}

pub(crate) fn shift(
    alloc: Global,
    function: ShiftName,
    operand: Box<Expr>,
    points: &Txt,
    default: &Option<Literal>,
    over: &OverPart,
) -> Result<Box<Expr>, AllocError>
    ensures { IfOk result (λ made. box_tree made ≡ tree.shift function (box_tree operand) points.now default.now over.now) }
{
    let points = points.share()?;
    let default = default.copy(alloc)?;
    let over = over.copy(alloc)?;
    let e = Expr::Shift {
        function,
        operand,
        points,
        default,
        over,
    };
    Ok(Box::new(alloc, e)?)
}

pub(crate) fn rank(alloc: Global, over: &OverPart) -> Result<Box<Expr>, AllocError>
    ensures { IfOk result (λ made. box_tree made ≡ tree.rank over.now) }
{
    Ok(Box::new(alloc, Expr::Rank(over.copy(alloc)?))?)
}

pub(crate) fn time(
    alloc: Global,
    operand: Box<Expr>,
    call: &TimeCall,
) -> Result<Box<Expr>, AllocError>
    ensures { IfOk result (λ made. box_tree made ≡ tree.time (box_tree operand) call.now) }
{
    let call = call.copy(alloc)?;
    Ok(Box::new(alloc, Expr::Time { operand, call })?)
}

pub(crate) fn check(
    alloc: Global,
    operand: Box<Expr>,
    error: &ErrorPart,
    imbalance: Option<Box<Expr>>,
    output: Option<BasicOut>,
) -> Result<Box<Expr>, AllocError>
    ensures { IfOk result (λ made. box_tree made ≡ tree.check (box_tree operand) error.now (maybe_tree imbalance) output) }
{
    let error = error.copy(alloc)?;
    let e = Expr::Check {
        operand,
        error,
        imbalance,
        output,
    };
    Ok(Box::new(alloc, e)?)
}

pub(crate) fn check_datapoint(
    alloc: Global,
    operand: Box<Expr>,
    ruleset: &Txt,
    output: Option<CheckOut>,
) -> Result<Box<Expr>, AllocError>
    ensures { IfOk result (λ made. box_tree made ≡ tree.check_datapoint (box_tree operand) «ruleset».now output) }
{
    let ruleset = ruleset.share()?;
    let e = Expr::CheckDatapoint {
        operand,
        ruleset,
        output,
    };
    Ok(Box::new(alloc, e)?)
}

pub(crate) fn check_hierarchy(
    alloc: Global,
    operand: Box<Expr>,
    ruleset: &Txt,
    rule: &Option<Comp>,
    mode: Option<Mode>,
    dataset: bool,
    output: Option<CheckOut>,
) -> Result<Box<Expr>, AllocError>
    ensures { IfOk result (λ made. box_tree made ≡ tree.check_hierarchy (box_tree operand) «ruleset».now rule.now mode dataset output) }
{
    let ruleset = ruleset.share()?;
    let rule = rule.copy(alloc)?;
    let e = Expr::CheckHierarchy {
        operand,
        ruleset,
        rule,
        mode,
        dataset,
        output,
    };
    Ok(Box::new(alloc, e)?)
}

pub(crate) fn hierarchy(
    alloc: Global,
    operand: Box<Expr>,
    ruleset: &Txt,
    rule: &Option<Comp>,
    mode: Option<Mode>,
    input: Option<HierInput>,
    output: Option<HierOut>,
) -> Result<Box<Expr>, AllocError>
    ensures { IfOk result (λ made. box_tree made ≡ tree.hierarchy (box_tree operand) «ruleset».now rule.now mode input output) }
{
    let ruleset = ruleset.share()?;
    let rule = rule.copy(alloc)?;
    let e = Expr::Hierarchy {
        operand,
        ruleset,
        rule,
        mode,
        input,
        output,
    };
    Ok(Box::new(alloc, e)?)
}

pub(crate) fn join(
    alloc: Global,
    kind: JoinKind,
    operands: Vec<JoinPart>,
    using: &Option<List<Comp>>,
    filter: Option<Box<Expr>>,
    targets: Option<Targets>,
    keeping: &Option<Keeping>,
    renames: &Option<List<RenamePart>>,
) -> Result<Box<Expr>, AllocError>
    ensures { IfOk result (λ made. box_tree made ≡ tree.join kind (parts_of (map part_tree operands.items)) «using».now (maybe_tree filter) (maybe_targets (option_map targets_tree targets)) keeping.now renames.now) }
{
    let using = using.copy(alloc)?;
    let keeping = keeping.copy(alloc)?;
    let renames = renames.copy(alloc)?;
    let e = Expr::Join {
        kind,
        operands,
        using,
        filter,
        targets,
        keeping,
        renames,
    };
    Ok(Box::new(alloc, e)?)
}
