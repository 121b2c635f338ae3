// Typed expressions on data sets.

use crate::{
    AggSpec, AnalyticSpec, CalcItem, CheckSpec, CompExpr, DatapointRules, HierRules, JoinSpec,
    Renaming, Structure, SubItem, TimeOp,
};
use vtl_cell::ScalarOp;
use vtl_syntax::{CheckOut, HierInput, HierOut, Mode, Retain};
use vtl_text::{List, Txt};

/// A typed expression whose value is a data set.
#[cycle(node)]
pub struct Node {
    /// The structure of its data set.
    pub structure: Structure,
    /// What it is made of.
    pub form: NodeForm,
}

// Written out, so that a proof above sees one call and not the drop of each part.
impl Drop for Node {
    #[cycle(dropped)]
    fn drop(self) {
        let Node {
            structure: _structure,
            form: _form,
        } = self;
    }
}

/// The form of a typed expression.
#[cycle(node)]
#[derive(Drop)]
pub enum NodeForm {
    /// A data set by its name.
    Named(Txt),
    /// An operator on each measure.
    Measures {
        op: MeasureOp,
        a: Box<Node>,
    },
    /// An operator on the measures of two data sets, paired by name.
    Pair {
        op: ScalarOp,
        a: Box<Node>,
        b: Box<Node>,
    },
    /// `if c then a else b`
    Choose {
        c: Box<Node>,
        a: Box<Node>,
        b: Box<Node>,
    },
    /// `a#m`
    Member {
        a: Box<Node>,
        m: Txt,
    },
    /// `a[filter c]`
    Filter {
        a: Box<Node>,
        c: CompExpr,
    },
    /// `a[calc items]`, without analytic calls
    Calc {
        a: Box<Node>,
        items: List<CalcItem>,
    },
    /// `a[keep names]`
    Keep {
        a: Box<Node>,
        names: List<Txt>,
    },
    /// `a[drop names]`
    DropNamed {
        a: Box<Node>,
        names: List<Txt>,
    },
    /// `a[rename pairs]`
    Rename {
        a: Box<Node>,
        pairs: List<Renaming>,
    },
    /// `a[sub values]`
    Sub {
        a: Box<Node>,
        values: List<SubItem>,
    },
    /// `a[pivot id, m]`
    Pivot {
        a: Box<Node>,
        id: Txt,
        m: Txt,
    },
    /// `a[unpivot id, m]`
    Unpivot {
        a: Box<Node>,
        id: Txt,
        m: Txt,
    },
    /// A join of two or more operands, before the parts of its body.
    Join {
        operands: Vec<JoinOperand>,
        spec: JoinSpec,
    },
    /// `union(nodes)`
    Union(Vec<Node>),
    /// `intersect(nodes)`
    Intersect(Vec<Node>),
    /// `setdiff(a, b)`
    SetDiff {
        a: Box<Node>,
        b: Box<Node>,
    },
    /// `symdiff(a, b)`
    SymDiff {
        a: Box<Node>,
        b: Box<Node>,
    },
    /// `exists_in(a, b, retain)`
    ExistsIn {
        a: Box<Node>,
        b: Box<Node>,
        retain: Retain,
    },
    /// An aggregate of each measure, or `a[aggr ..]`.
    Aggregate {
        a: Box<Node>,
        spec: AggSpec,
    },
    /// An analytic operator on each measure, or `a[calc ..]` with an analytic call.
    Analytic {
        a: Box<Node>,
        spec: AnalyticSpec,
    },
    /// A time operator.
    Time {
        a: Box<Node>,
        op: TimeOp,
    },
    /// `check(a ..)`
    Check {
        a: Box<Node>,
        imbalance: Option<Box<Node>>,
        spec: CheckSpec,
    },
    /// `check_datapoint(a ..)`
    CheckDatapoint {
        a: Box<Node>,
        rules: DatapointRules,
        out: CheckOut,
    },
    /// `check_hierarchy(a ..)`
    CheckHierarchy {
        a: Box<Node>,
        rules: HierRules,
        mode: Mode,
        out: CheckOut,
    },
    /// `hierarchy(a ..)`
    Hierarchy {
        a: Box<Node>,
        rules: HierRules,
        mode: Mode,
        input: HierInput,
        out: HierOut,
    },
}

/// An operand of a join with its alias.
#[cycle(node)]
pub struct JoinOperand {
    /// The operand.
    pub node: Node,
    /// Its alias.
    pub alias: Txt,
}

// Written out, so that a proof above sees one call and not the drop of each part.
impl Drop for JoinOperand {
    #[cycle(dropped)]
    fn drop(self) {
        let JoinOperand {
            node: _node,
            alias: _alias,
        } = self;
    }
}

/// An operator on each measure, with the values that stand before and after the measure.
#[derive(Drop)]
pub struct MeasureOp {
    /// The operator.
    pub op: ScalarOp,
    /// The operands before the measure.
    pub before: List<CompExpr>,
    /// The operands after the measure.
    pub after: List<CompExpr>,
}
