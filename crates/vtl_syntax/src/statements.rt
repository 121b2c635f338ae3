// Scripts, statements and rules.
ghost use Rattle.std.specs.Prelude.{◌≡◌, IfOk};

use crate::{Addition, AssignKind, Comp, Comparison, ErrorPart, Expr, SignedComp};
use std::alloc::AllocError;
use vtl_text::{List, Shared, Txt};

/// A script. Its owners share one tree.
pub struct Script {
    /// Its statements, in order.
    pub statements: Shared<Statement>,
}

// Written out, so that a proof above sees one call and not the drop of each part.
impl Drop for Script {
    fn drop(self) {
        let Script {
            statements: _statements,
        } = self;
    }
}

impl Script {
    /// One more owner of the same script. It fails only if memory runs out.
    pub fn share(&self) -> Result<Script, AllocError>
        ensures { IfOk result (λ script. script ≡ self.now) }
    {
        Ok(Script {
            statements: self.statements.share()?,
        })
    }
}

/// A statement.
pub enum Statement {
    /// `name := value;` or `name <- value;`
    Assignment {
        name: Txt,
        kind: AssignKind,
        value: Expr,
    },
    /// `define datapoint ruleset name (variable variables) is rules end datapoint ruleset;`
    Datapoint {
        name: Txt,
        variables: List<Comp>,
        rules: List<PointRule>,
        last_semicolon: bool,
    },
    /// `define hierarchical ruleset name (variable rule item) is rules end hierarchical ruleset;`
    Hierarchical {
        name: Txt,
        item: Comp,
        rules: List<HierRule>,
        last_semicolon: bool,
    },
}

// Written out, so that a proof above sees one call and not the drop of each part.
impl Drop for Statement {
    fn drop(self) {
        match self {
            Statement::Assignment {
                name: _name,
                kind: _kind,
                value: _value,
            } => {}
            Statement::Datapoint {
                name: _name,
                variables: _variables,
                rules: _rules,
                last_semicolon: _last_semicolon,
            } => {}
            Statement::Hierarchical {
                name: _name,
                item: _item,
                rules: _rules,
                last_semicolon: _last_semicolon,
            } => {}
        }
    }
}

/// `name: when condition then holds error`
#[derive(Drop)]
pub struct PointRule {
    /// The name, where one is written.
    pub name: Option<Txt>,
    /// The condition, where one is written.
    pub when: Option<Expr>,
    /// What has to hold.
    pub holds: Expr,
    /// The error code and level.
    pub error: ErrorPart,
}

/// `name: item comparison sign first others error`
#[derive(Debug, Drop)]
pub struct HierRule {
    /// The name, where one is written.
    pub name: Option<Txt>,
    /// The item on the left.
    pub item: Comp,
    /// How the sides compare.
    pub comparison: Comparison,
    /// The sign before the first item on the right, where one is written.
    pub sign: Option<Addition>,
    /// The first item on the right.
    pub first: Comp,
    /// The items after it.
    pub others: List<SignedComp>,
    /// The error code and level.
    pub error: ErrorPart,
}
