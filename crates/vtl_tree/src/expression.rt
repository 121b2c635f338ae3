// Expressions over the components of one point.
//
// A component is its place in the column order, with its name beside it: its value needs no search.
ghost use Rattle.std.specs.Prelude.{◌≡◌, IfOk};

use std::alloc::AllocError;
use vtl_cell::{AggKind, Cell, Kind, ScalarOp};
use vtl_text::Txt;

/// An expression over the components of one point.
pub enum CompExpr {
    /// The value of a component.
    Column {
        /// Its place in the column order of the data set.
        place: usize,
        /// Its name.
        name: Txt,
        /// The kind of its values.
        kind: Kind,
    },
    /// A value that is written in the script.
    Const(Cell),
    /// An operator on the values of its operands.
    Apply {
        /// The operator.
        op: ScalarOp,
        /// The kind of the result.
        kind: Kind,
        /// The operands, from left to right.
        args: Vec<CompExpr>,
    },
    /// An aggregate of the points of a group, in the condition of groups.
    Aggregate {
        /// The aggregate.
        call: AggCall,
        /// The kind of the result.
        kind: Kind,
    },
}

// Written out, so that a proof above sees one call and not the drop of each part.
impl Drop for CompExpr {
    #[cycle(dropped)]
    fn drop(self) {
        match self {
            CompExpr::Column {
                place: _,
                name: _name,
                kind: _,
            } => {}
            CompExpr::Const(_cell) => {}
            CompExpr::Apply {
                op: _,
                kind: _,
                args: _args,
            } => {}
            CompExpr::Aggregate {
                call: _call,
                kind: _,
            } => {}
        }
    }
}

/// An aggregate of the points of a group.
pub struct AggCall {
    /// The operator.
    pub kind: AggKind,
    /// The component, or none for the number of points.
    pub component: Option<Txt>,
}

impl AggCall {
    /// An equal call, whose text is shared. It fails only if memory runs out.
    pub fn share(&self) -> Result<AggCall, AllocError>
        ensures { IfOk result (λ copy. copy ≡ self.now) }
    {
        let component = match &self.component {
            Some(name) => Some(name.share()?),
            None => None,
        };
        Ok(AggCall {
            kind: self.kind,
            component,
        })
    }
}

// Written out, so that a proof above sees one call and not the drop of each part.
impl Drop for AggCall {
    fn drop(self) {
        let AggCall {
            kind: _kind,
            component: _component,
        } = self;
    }
}
