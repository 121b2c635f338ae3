// Expressions, clauses and the body of joins.
//
// Raw `Vec`s stay in the trees: the kit gives no proof to calls in a circle through a recursive type with a model.

use crate::{
    AggregateName, BasicOut, BinaryOp, CheckOut, Comp, Constant, DifferenceName, ErrorPart,
    FunctionName, GroupPart, HierInput, HierOut, JoinKind, Keeping, Literal, Mode, OverPart,
    RenamePart, Retain, SetOpName, ShiftName, SubPart, TimeCall, UnaryOp, ValueWindowName,
    WrittenRole,
};
use vtl_text::{List, Txt};

/// An expression.
#[cycle(expr)]
pub enum Expr {
    /// `if condition then yes else no`
    If {
        condition: Box<Expr>,
        then: Box<Expr>,
        other: Box<Expr>,
    },
    /// `left op right`
    Binary {
        left: Box<Expr>,
        op: BinaryOp,
        right: Box<Expr>,
    },
    /// `operand in {literals}` or `operand not_in {literals}`
    InSet {
        operand: Box<Expr>,
        negated: bool,
        literals: List<Literal>,
    },
    /// `op operand`
    Unary {
        op: UnaryOp,
        operand: Box<Expr>,
    },
    /// `operand[clause]`
    WithClause {
        operand: Box<Expr>,
        clause: Box<Clause>,
    },
    /// `operand#component`
    Member {
        operand: Box<Expr>,
        component: Comp,
    },
    /// A name alone.
    Component(Comp),
    /// A constant.
    Constant(Constant),
    /// `(inner)`
    Brackets(Box<Expr>),
    /// `function(operands)`
    Function {
        function: FunctionName,
        operands: Vec<Expr>,
    },
    /// `function(operand group having condition)`
    Aggregate {
        function: AggregateName,
        operand: Option<Box<Expr>>,
        group: Option<GroupPart>,
        having: Option<Box<Expr>>,
    },
    /// `function(operand over)`
    AggregateOver {
        function: AggregateName,
        operand: Option<Box<Expr>>,
        over: OverPart,
    },
    /// `function(operand over)`, with one of the functions that are never aggregates
    ValueWindow {
        function: ValueWindowName,
        operand: Box<Expr>,
        over: OverPart,
    },
    /// `function(operand, points, default over)`
    Shift {
        function: ShiftName,
        operand: Box<Expr>,
        points: Txt,
        default: Option<Literal>,
        over: OverPart,
    },
    /// `rank(over)`
    Rank(OverPart),
    /// `operator(operands)`
    SetOp {
        operator: SetOpName,
        operands: Vec<Expr>,
    },
    /// `operator(left, right)`
    Difference {
        operator: DifferenceName,
        left: Box<Expr>,
        right: Box<Expr>,
    },
    /// `exists_in(left, right, retain)`
    ExistsIn {
        left: Box<Expr>,
        right: Box<Expr>,
        retain: Option<Retain>,
    },
    /// `operator(operand ..)`, with a time operator
    Time {
        operand: Box<Expr>,
        call: TimeCall,
    },
    /// `check(operand error imbalance expression output)`
    Check {
        operand: Box<Expr>,
        error: ErrorPart,
        imbalance: Option<Box<Expr>>,
        output: Option<BasicOut>,
    },
    /// `check_datapoint(operand, ruleset output)`
    CheckDatapoint {
        operand: Box<Expr>,
        ruleset: Txt,
        output: Option<CheckOut>,
    },
    /// `check_hierarchy(operand, ruleset rule component mode dataset output)`
    CheckHierarchy {
        operand: Box<Expr>,
        ruleset: Txt,
        rule: Option<Comp>,
        mode: Option<Mode>,
        dataset: bool,
        output: Option<CheckOut>,
    },
    /// `hierarchy(operand, ruleset rule component mode input output)`
    Hierarchy {
        operand: Box<Expr>,
        ruleset: Txt,
        rule: Option<Comp>,
        mode: Option<Mode>,
        input: Option<HierInput>,
        output: Option<HierOut>,
    },
    /// `kind(operands using names filter condition targets keeping renames)`
    Join {
        kind: JoinKind,
        operands: Vec<JoinPart>,
        using: Option<List<Comp>>,
        filter: Option<Box<Expr>>,
        targets: Option<Targets>,
        keeping: Option<Keeping>,
        renames: Option<List<RenamePart>>,
    },
}

// Written out, so that a proof above sees one call and not the drop of each part.
impl Drop for Expr {
    #[cycle(dropped)]
    fn drop(self) {
        match self {
            Expr::If {
                condition: _condition,
                then: _then,
                other: _other,
            } => {}
            Expr::Binary {
                left: _left,
                op: _op,
                right: _right,
            } => {}
            Expr::InSet {
                operand: _operand,
                negated: _negated,
                literals: _literals,
            } => {}
            Expr::Unary {
                op: _op,
                operand: _operand,
            } => {}
            Expr::WithClause {
                operand: _operand,
                clause: _clause,
            } => {}
            Expr::Member {
                operand: _operand,
                component: _component,
            } => {}
            Expr::Component(_part0) => {}
            Expr::Constant(_part0) => {}
            Expr::Brackets(_part0) => {}
            Expr::Function {
                function: _function,
                operands: _operands,
            } => {}
            Expr::Aggregate {
                function: _function,
                operand: _operand,
                group: _group,
                having: _having,
            } => {}
            Expr::AggregateOver {
                function: _function,
                operand: _operand,
                over: _over,
            } => {}
            Expr::ValueWindow {
                function: _function,
                operand: _operand,
                over: _over,
            } => {}
            Expr::Shift {
                function: _function,
                operand: _operand,
                points: _points,
                default: _default,
                over: _over,
            } => {}
            Expr::Rank(_part0) => {}
            Expr::SetOp {
                operator: _operator,
                operands: _operands,
            } => {}
            Expr::Difference {
                operator: _operator,
                left: _left,
                right: _right,
            } => {}
            Expr::ExistsIn {
                left: _left,
                right: _right,
                retain: _retain,
            } => {}
            Expr::Time {
                operand: _operand,
                call: _call,
            } => {}
            Expr::Check {
                operand: _operand,
                error: _error,
                imbalance: _imbalance,
                output: _output,
            } => {}
            Expr::CheckDatapoint {
                operand: _operand,
                ruleset: _ruleset,
                output: _output,
            } => {}
            Expr::CheckHierarchy {
                operand: _operand,
                ruleset: _ruleset,
                rule: _rule,
                mode: _mode,
                dataset: _dataset,
                output: _output,
            } => {}
            Expr::Hierarchy {
                operand: _operand,
                ruleset: _ruleset,
                rule: _rule,
                mode: _mode,
                input: _input,
                output: _output,
            } => {}
            Expr::Join {
                kind: _kind,
                operands: _operands,
                using: _using,
                filter: _filter,
                targets: _targets,
                keeping: _keeping,
                renames: _renames,
            } => {}
        }
    }
}

/// What stands between `[` and `]`.
#[cycle(expr)]
#[derive(Drop)]
pub enum Clause {
    /// `filter condition`
    Filter(Box<Expr>),
    /// `calc` or `aggr`
    Targets(Targets),
    /// `keep` or `drop`
    Keeping(Keeping),
    /// `rename renames`
    Rename(List<RenamePart>),
    /// `sub values`
    Sub(List<SubPart>),
    /// `pivot identifier, measure`
    Pivot { identifier: Comp, measure: Comp },
    /// `unpivot identifier, measure`
    Unpivot { identifier: Comp, measure: Comp },
}

/// `calc` or `aggr` with what it makes.
#[cycle(expr)]
#[derive(Drop)]
pub enum Targets {
    /// `calc parts`
    Calc(Vec<CalcPart>),
    /// `aggr parts group having condition`
    Aggr {
        parts: Vec<CalcPart>,
        group: Option<GroupPart>,
        having: Option<Box<Expr>>,
    },
}

/// `role component := value`
#[cycle(expr)]
#[derive(Drop)]
pub struct CalcPart {
    /// The role, where one is written.
    pub role: Option<WrittenRole>,
    /// The component that is made.
    pub component: Comp,
    /// Its value.
    pub value: Box<Expr>,
}

/// `operand as alias`
#[cycle(expr)]
#[derive(Drop)]
pub struct JoinPart {
    /// The operand.
    pub operand: Box<Expr>,
    /// The alias, where one is written.
    pub alias: Option<Txt>,
}
