// Copies of the parts of scripts that hold no expression.

use crate::part::Part;
use std::alloc::{AllocError, Global};
use vtl_syntax::{
    Comp, Constant, DataPoints, ErrorPart, GroupPart, HierRule, Keeping, Limit, Literal, Numeral,
    OrderPart, OverPart, Reference, RenamePart, SignedComp, SubPart, TimeCall,
};

impl Part for Comp {
    fn copy(&self, _alloc: Global) -> Result<Comp, AllocError> {
        match self {
            Comp::Name(name) => Ok(Comp::Name(name.share()?)),
            Comp::Quoted(name) => Ok(Comp::Quoted(name.share()?)),
        }
    }
}

impl Part for Numeral {
    fn copy(&self, _alloc: Global) -> Result<Numeral, AllocError> {
        match self {
            Numeral::Integer(digits) => Ok(Numeral::Integer(digits.share()?)),
            Numeral::Decimal(digits) => Ok(Numeral::Decimal(digits.share()?)),
        }
    }
}

impl Part for Constant {
    fn copy(&self, alloc: Global) -> Result<Constant, AllocError> {
        match self {
            Constant::Number(numeral) => Ok(Constant::Number(numeral.copy(alloc)?)),
            Constant::String(text) => Ok(Constant::String(text.share()?)),
            Constant::Boolean(value) => Ok(Constant::Boolean(*value)),
            Constant::Null => Ok(Constant::Null),
            Constant::Cast { text, kind } => Ok(Constant::Cast {
                text: text.share()?,
                kind: *kind,
            }),
        }
    }
}

impl Part for Literal {
    fn copy(&self, alloc: Global) -> Result<Literal, AllocError> {
        match self {
            Literal::Number { negative, numeral } => Ok(Literal::Number {
                negative: *negative,
                numeral: numeral.copy(alloc)?,
            }),
            Literal::String(text) => Ok(Literal::String(text.share()?)),
            Literal::Boolean(value) => Ok(Literal::Boolean(*value)),
            Literal::Cast { text, kind } => Ok(Literal::Cast {
                text: text.share()?,
                kind: *kind,
            }),
        }
    }
}

impl Part for Reference {
    fn copy(&self, alloc: Global) -> Result<Reference, AllocError> {
        match self {
            Reference::Component(component) => Ok(Reference::Component(component.copy(alloc)?)),
            Reference::Member { operand, component } => Ok(Reference::Member {
                operand: operand.share()?,
                component: component.copy(alloc)?,
            }),
        }
    }
}

impl Part for RenamePart {
    fn copy(&self, alloc: Global) -> Result<RenamePart, AllocError> {
        Ok(RenamePart {
            from: self.from.copy(alloc)?,
            to: self.to.copy(alloc)?,
        })
    }
}

impl Part for SubPart {
    fn copy(&self, alloc: Global) -> Result<SubPart, AllocError> {
        Ok(SubPart {
            component: self.component.copy(alloc)?,
            value: self.value.copy(alloc)?,
        })
    }
}

impl Part for Keeping {
    fn copy(&self, alloc: Global) -> Result<Keeping, AllocError> {
        match self {
            Keeping::Keep(references) => Ok(Keeping::Keep(references.copy(alloc)?)),
            Keeping::Drop(references) => Ok(Keeping::Drop(references.copy(alloc)?)),
        }
    }
}

impl Part for GroupPart {
    fn copy(&self, alloc: Global) -> Result<GroupPart, AllocError> {
        Ok(GroupPart {
            kind: self.kind,
            names: self.names.copy(alloc)?,
        })
    }
}

impl Part for OrderPart {
    fn copy(&self, alloc: Global) -> Result<OrderPart, AllocError> {
        Ok(OrderPart {
            component: self.component.copy(alloc)?,
            direction: self.direction,
        })
    }
}

impl Part for Limit {
    fn copy(&self, _alloc: Global) -> Result<Limit, AllocError> {
        match self {
            Limit::Unbounded(side) => Ok(Limit::Unbounded(*side)),
            Limit::Points { points, side } => Ok(Limit::Points {
                points: points.share()?,
                side: *side,
            }),
            Limit::Current => Ok(Limit::Current),
        }
    }
}

impl Part for DataPoints {
    fn copy(&self, alloc: Global) -> Result<DataPoints, AllocError> {
        Ok(DataPoints {
            from: self.from.copy(alloc)?,
            to: self.to.copy(alloc)?,
        })
    }
}

impl Part for OverPart {
    fn copy(&self, alloc: Global) -> Result<OverPart, AllocError> {
        Ok(OverPart {
            partition: self.partition.copy(alloc)?,
            order: self.order.copy(alloc)?,
            points: self.points.copy(alloc)?,
        })
    }
}

impl Part for TimeCall {
    fn copy(&self, _alloc: Global) -> Result<TimeCall, AllocError> {
        match self {
            TimeCall::Timeshift { negative, periods } => Ok(TimeCall::Timeshift {
                negative: *negative,
                periods: periods.share()?,
            }),
            TimeCall::FillTimeSeries(filling) => Ok(TimeCall::FillTimeSeries(*filling)),
            TimeCall::FlowToStock => Ok(TimeCall::FlowToStock),
            TimeCall::StockToFlow => Ok(TimeCall::StockToFlow),
        }
    }
}

impl Part for ErrorPart {
    fn copy(&self, alloc: Global) -> Result<ErrorPart, AllocError> {
        Ok(ErrorPart {
            code: self.code.copy(alloc)?,
            level: self.level.copy(alloc)?,
        })
    }
}

impl Part for SignedComp {
    fn copy(&self, alloc: Global) -> Result<SignedComp, AllocError> {
        Ok(SignedComp {
            sign: self.sign,
            item: self.item.copy(alloc)?,
        })
    }
}

impl Part for HierRule {
    fn copy(&self, alloc: Global) -> Result<HierRule, AllocError> {
        Ok(HierRule {
            name: self.name.copy(alloc)?,
            item: self.item.copy(alloc)?,
            comparison: self.comparison,
            sign: self.sign,
            first: self.first.copy(alloc)?,
            others: self.others.copy(alloc)?,
            error: self.error.copy(alloc)?,
        })
    }
}
