// Operators on whole data sets.
ghost use Rattle.std.specs.Option.{option_map, option_to_list};
ghost use Rattle.std.specs.Prelude.{◌≡◌, ◌∷◌, [], IfOk, map};
ghost use Rattle.vtl_tree.specs.Trees.{nodes_of, structure_of};
ghost use Rattle.vtl_tree.specs.NodeView.{form_tree, node_tree};
ghost use Rattle.check_faults.specs.Answers.{Answers};
ghost use Rattle.check_shapes.specs.Choices.{choice_form};
ghost use Rattle.check_shapes.specs.Pairs.{check_form as check_structure};
ghost use Rattle.vtl_tree.specs.Shown.{shown};
ghost use Rattle.vtl_tree.specs.Names.{name_of};
ghost use Rattle.check_operators.specs.Sets.{check_form, check_spec, datasets_in, difference_form, difference_tree, exists_form, imbalance_in, level_typed, member_of, set_of, set_structure, set_tree, sets_form, structures_in};
ghost use Rattle.check_operators.specs.Typed.{boxed_tree, typed_tree, typed_trees};

use crate::Typed;
use crate::typed::made_of;
use check_faults::{Rule, TypeErr};
use check_shapes::{choose_known, exists_in, set_operator};
use check_values::{name, share_text};
use std::alloc::{AllocError, Global};
use vtl_cell::integer_written;
use vtl_decimal::Profile;
use vtl_syntax::{BasicOut, Comp, DifferenceName, ErrorPart, Retain, SetOpName};
use vtl_text::Txt;
use vtl_tree::{CheckSpec, Choice, Node, NodeForm, Structure, Wanted};

fn member_structure(alloc: Global, name: &Txt, structure: &Structure) -> Result<Structure, TypeErr>
    ensures { Answers (λ s. s) result (choice_form Wanted.Measure Choice.Keep (name.now ∷ []) structure.now.components) }
{
    let names = [name.share()?];
    choose_known(alloc, Wanted::Measure, Choice::Keep, structure, &names)
}

/// `operand#component`: the identifiers and one measure. It breaks `UnknownComponent` and `WrongRole`.
#[tactic(auto, unfolding(crate::specs::Sets::member_of))]
pub fn member(alloc: Global, component: &Comp, operand: Box<Node>) -> Result<Typed, TypeErr>
    ensures { Answers typed_tree result (member_of component.now (boxed_tree operand)) }
{
    let structure = member_structure(alloc, name(component), &operand.structure)?;
    let m = name(component).share()?;
    made_of(alloc, structure, NodeForm::Member { a: operand, m })
}

// Operands that all have to be data sets.
fn datasets(alloc: Global, operands: Vec<Typed>) -> Result<Vec<Node>, TypeErr>
    ensures { Answers (λ v. map node_tree v.items) result (datasets_in (typed_trees operands)) }
{
    let mut nodes = Vec::new(alloc);
    for operand in operands {
        nodes.push(Box::into_inner(operand.dataset()?))?;
    }
    Ok(nodes)
}

fn structures_in(alloc: Global, nodes: &[Node]) -> Result<Vec<&Structure>, AllocError>
    ensures { IfOk result (λ v. shown v.items ≡ structures_in (map node_tree nodes.now)) }
{
    let mut structures = Vec::new(alloc);
    for node in nodes {
        structures.push(&node.structure)?;
    }
    Ok(structures)
}

fn set_structure(alloc: Global, nodes: &[Node]) -> Result<Structure, TypeErr>
    ensures { Answers (λ s. s) result (set_structure (map node_tree nodes.now)) }
{
    match nodes {
        [first, others @ ..] => {
            let others = structures_in(alloc, others)?;
            set_operator(alloc, &first.structure, &others)
        }
        [] => Err(TypeErr::Broken(Rule::DatasetOrValue)),
    }
}

fn set_tree(operator: SetOpName, nodes: Vec<Node>) -> NodeForm
    ensures { form_tree result ≡ set_tree operator (nodes_of (map node_tree nodes.items)) }
{
    match operator {
        SetOpName::Union => NodeForm::Union(nodes),
        SetOpName::Intersect => NodeForm::Intersect(nodes),
    }
}

fn set_of(alloc: Global, operator: SetOpName, nodes: Vec<Node>) -> Result<Typed, TypeErr>
    ensures { Answers typed_tree result (set_of operator (map node_tree nodes.items)) }
{
    let structure = set_structure(alloc, &nodes)?;
    made_of(alloc, structure, set_tree(operator, nodes))
}

/// `union` and `intersect`. They break `IdentifiersDisagree`, `MeasuresDisagree` and `DatasetOrValue`.
#[tactic(auto, unfolding(crate::specs::Sets::sets_form))]
pub fn sets(alloc: Global, operator: SetOpName, operands: Vec<Typed>) -> Result<Typed, TypeErr>
    ensures { Answers typed_tree result (sets_form operator (typed_trees operands)) }
{
    let nodes = datasets(alloc, operands)?;
    set_of(alloc, operator, nodes)
}

fn difference_tree(operator: DifferenceName, a: Box<Node>, b: Box<Node>) -> NodeForm
    ensures { form_tree result ≡ difference_tree operator (boxed_tree a) (boxed_tree b) }
{
    match operator {
        DifferenceName::Setdiff => NodeForm::SetDiff { a, b },
        DifferenceName::Symdiff => NodeForm::SymDiff { a, b },
    }
}

/// `setdiff` and `symdiff`. They break `IdentifiersDisagree`, `MeasuresDisagree` and `DatasetOrValue`.
#[tactic(auto, unfolding(crate::specs::Sets::difference_form))]
pub fn difference(
    alloc: Global,
    operator: DifferenceName,
    left: Typed,
    right: Typed,
) -> Result<Typed, TypeErr>
    ensures { Answers typed_tree result (difference_form operator (typed_tree left) (typed_tree right)) }
{
    let left = left.dataset()?;
    let right = right.dataset()?;
    let structure = set_operator(alloc, &left.structure, &[&right.structure])?;
    made_of(alloc, structure, difference_tree(operator, left, right))
}

/// `exists_in`. It breaks `IdentifiersDisagree` and `DatasetOrValue`.
#[tactic(auto, unfolding(crate::specs::Sets::exists_form))]
pub fn exists(
    alloc: Global,
    retain: Option<Retain>,
    left: Typed,
    right: Typed,
) -> Result<Typed, TypeErr>
    ensures { Answers typed_tree result (exists_form retain (typed_tree left) (typed_tree right)) }
{
    let a = left.dataset()?;
    let b = right.dataset()?;
    let structure = exists_in(alloc, &a.structure, &b.structure)?;
    let retain = retain.unwrap_or(Retain::All);
    made_of(alloc, structure, NodeForm::ExistsIn { a, b, retain })
}

// The level of an error.
fn level(profile: &Profile, digits: &Option<Txt>) -> Result<Option<i64>, TypeErr>
    ensures { Answers (λ level. level) result (level_typed profile.now digits.now) }
{
    match digits {
        Some(digits) => match integer_written(profile, digits) {
            Some(level) => Ok(Some(level)),
            None => Err(TypeErr::Broken(Rule::WrongLiteral)),
        },
        None => Ok(None),
    }
}

/// The error of `check` and its output. The level breaks `WrongLiteral` where it is out of range.
pub fn check_spec(
    profile: &Profile,
    error: &ErrorPart,
    output: Option<BasicOut>,
) -> Result<CheckSpec, TypeErr>
    ensures { Answers (λ s. s) result (check_spec profile.now error.now output) }
{
    let errorlevel = level(profile, &error.level)?;
    let errorcode = share_text(&error.code)?;
    Ok(CheckSpec {
        errorcode,
        errorlevel,
        output: output.unwrap_or(BasicOut::All),
    })
}

fn imbalance_in(imbalance: Option<Typed>) -> Result<Option<Box<Node>>, TypeErr>
    ensures { Answers (λ b. option_map boxed_tree b) result (imbalance_in (option_map typed_tree imbalance)) }
{
    match imbalance {
        Some(imbalance) => Ok(Some(imbalance.dataset()?)),
        None => Ok(None),
    }
}

fn check_structure(
    alloc: Global,
    operand: &Structure,
    imbalance: &Option<Box<Node>>,
) -> Result<Structure, TypeErr>
    ensures { Answers (λ s. s) result (check_structure operand.now (structures_in (option_to_list (option_map boxed_tree imbalance.now)))) }
{
    match imbalance {
        Some(node) => check_shapes::check(alloc, operand, Some(&node.structure)),
        None => check_shapes::check(alloc, operand, None),
    }
}

/// `check`, with an imbalance or without. It breaks `IdentifiersDisagree`, `MeasuresDisagree` and `DatasetOrValue`.
#[tactic(auto, unfolding(crate::specs::Sets::check_form))]
pub fn check(
    alloc: Global,
    spec: CheckSpec,
    operand: Typed,
    imbalance: Option<Typed>,
) -> Result<Typed, TypeErr>
    ensures { Answers typed_tree result (check_form spec (typed_tree operand) (option_map typed_tree imbalance)) }
{
    let a = operand.dataset()?;
    let imbalance = imbalance_in(imbalance)?;
    let structure = check_structure(alloc, &a.structure, &imbalance)?;
    made_of(alloc, structure, NodeForm::Check { a, imbalance, spec })
}
