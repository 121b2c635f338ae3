// What HAVING and the items of a grouped select ask for.

use crate::items::GroupSelect;
use sql_eval::{Existence, Resolved};
use std::alloc::{AllocError, Global};

/// The EXISTS that are asked at groups, and the operands of aggregates, which are evaluated at the rows of FROM.
pub(crate) struct Asked<'e> {
    pub(crate) tests: Vec<&'e Existence>,
    pub(crate) operands: Vec<&'e Resolved>,
}

// Written out, so that a proof above sees one call and not the drop of each part.
impl Drop for Asked<'_> {
    fn drop(self) {
        let Asked {
            tests: _tests,
            operands: _operands,
        } = self;
    }
}

// Puts what an expression asks for behind the rest.
#[cycle(asked)]
fn push_asked<'e>(asked: &mut Asked<'e>, e: &'e Resolved) -> Result<(), AllocError> {
    match e {
        Resolved::Exists(test) => asked.tests.push(test)?,
        Resolved::Aggregate { operand, .. } => asked.operands.push(operand)?,
        Resolved::Membership { operand, .. } => push_asked(asked, operand)?,
        Resolved::Apply { args, .. } => {
            for arg in args {
                push_asked(asked, arg)?;
            }
        }
        Resolved::Choose { branches, .. } => {
            for branch in branches {
                push_asked(asked, &branch.condition)?;
                push_asked(asked, &branch.value)?;
            }
        }
        _ => {}
    }
    Ok(())
}

impl<'e> Asked<'e> {
    /// What HAVING and the items ask for. It fails only if memory runs out.
    pub(crate) fn by(alloc: Global, select: &'e GroupSelect) -> Result<Asked<'e>, AllocError> {
        let mut asked = Asked {
            tests: Vec::new(alloc),
            operands: Vec::new(alloc),
        };
        if let Some(condition) = &select.having {
            push_asked(&mut asked, condition)?;
        }
        for item in &select.items {
            push_asked(&mut asked, &item.exp)?;
        }
        Ok(asked)
    }
}
