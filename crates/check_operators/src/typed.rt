// Typed expressions: values and data sets.
ghost use Rattle.std.specs.Prelude.{◌≡◌, ◌∷◌, [], IfOk, not};
ghost use Rattle.vtl_cell.specs.ScalarKinds.{meets};
ghost use Rattle.vtl_tree.specs.Trees.{node};
ghost use Rattle.vtl_tree.specs.NodeView.{form_tree};
ghost use Rattle.check_faults.specs.Answers.{Answers};
ghost use Rattle.check_faults.specs.Rules.{ruled};
ghost use Rattle.vtl_tree.specs.Measures.{is_measure};
ghost use Rattle.vtl_tree.specs.View.{comp_exp_of};
ghost use Rattle.vtl_tree.specs.Kinds.{exp_kind};
ghost use Rattle.check_operators.specs.Typed.{beside_kinds, boxed_tree, condition_in, dataset_in, made_of, measure_kinds, typed_tree, value_in};

use check_faults::{Rule, TypeErr};
use std::alloc::{AllocError, Global};
use vtl_cell::{Kind, meets};
use vtl_tree::{CompExpr, Component, Node, NodeForm, Role, Structure, kind};

/// A typed expression.
#[derive(Drop)]
pub enum Typed {
    /// A value: at each point, or on its own.
    Value(CompExpr),
    /// A data set.
    Dataset(Box<Node>),
}

impl Typed {
    /// The value, where one is needed: a data set breaks `DatasetOrValue`.
    pub fn value(self) -> Result<CompExpr, TypeErr>
        ensures { Answers comp_exp_of result (value_in (typed_tree self)) }
    {
        match self {
            Typed::Value(e) => Ok(e),
            Typed::Dataset(_) => Err(TypeErr::Broken(Rule::DatasetOrValue)),
        }
    }

    /// The data set, where one is needed: a value breaks `DatasetOrValue`.
    pub fn dataset(self) -> Result<Box<Node>, TypeErr>
        ensures { Answers boxed_tree result (dataset_in (typed_tree self)) }
    {
        match self {
            Typed::Value(_) => Err(TypeErr::Broken(Rule::DatasetOrValue)),
            Typed::Dataset(node) => Ok(node),
        }
    }

    /// The kinds of which literals beside an operand have to be: that of the value, or those of all measures.
    pub fn beside_kinds(&self, alloc: Global) -> Result<Vec<Kind>, AllocError>
        ensures { IfOk result (λ kinds. kinds.items ≡ beside_kinds (typed_tree self.now)) }
    {
        match self {
            Typed::Value(e) => one_kind(alloc, kind(e)),
            Typed::Dataset(node) => measure_kinds(alloc, node.structure.components.as_slice()),
        }
    }
}

fn one_kind(alloc: Global, kind: Kind) -> Result<Vec<Kind>, AllocError>
    ensures { IfOk result (λ kinds. kinds.items ≡ kind ∷ []) }
{
    let mut kinds = Vec::new(alloc);
    kinds.push(kind)?;
    Ok(kinds)
}

fn is_measure(component: &Component) -> bool
    ensures { result ≡ is_measure component.now }
{
    match component.role {
        Role::Measure => true,
        _ => false,
    }
}

fn measure_kinds(alloc: Global, components: &[Component]) -> Result<Vec<Kind>, AllocError>
    ensures { IfOk result (λ kinds. kinds.items ≡ measure_kinds components.now) }
{
    let mut kinds = Vec::new(alloc);
    for component in components {
        if is_measure(component) {
            kinds.push(component.kind)?;
        }
    }
    Ok(kinds)
}

/// The node of a data set of this structure, made in this form.
pub fn made_node(alloc: Global, structure: Structure, form: NodeForm) -> Result<Box<Node>, TypeErr>
    ensures { Answers boxed_tree result (Ok (node structure (form_tree form))) }
{
    Ok(Box::new(alloc, Node { structure, form })?)
}

/// A data set of this structure, made in this form.
pub fn made_of(alloc: Global, structure: Structure, form: NodeForm) -> Result<Typed, TypeErr>
    ensures { Answers typed_tree result (made_of (form_tree form) structure) }
{
    Ok(Typed::Dataset(made_node(alloc, structure, form)?))
}

fn boolean(e: CompExpr) -> Result<CompExpr, TypeErr>
    ensures { Answers comp_exp_of result (ruled ((Rule.WrongKind, not (meets Kind.Bool (exp_kind (comp_exp_of e)))) ∷ []) (comp_exp_of e)) }
{
    if meets(Kind::Bool, kind(&e)) {
        Ok(e)
    } else {
        Err(TypeErr::Broken(Rule::WrongKind))
    }
}

/// A condition: it breaks `DatasetOrValue` where it is a data set, and `WrongKind` where its value is not boolean.
pub fn condition(condition: Typed) -> Result<CompExpr, TypeErr>
    ensures { Answers comp_exp_of result (condition_in (typed_tree condition)) }
{
    match condition {
        Typed::Value(e) => boolean(e),
        Typed::Dataset(_) => Err(TypeErr::Broken(Rule::DatasetOrValue)),
    }
}
