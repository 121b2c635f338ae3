// Joins in the making: operands, one after the other.
ghost use Rattle.std.specs.Prelude.{◌≡◌, ◌++◌, [], ◌∷◌, IfOk, Option};
ghost use Rattle.std.specs.Option.{IfSome};
ghost use Rattle.vtl_join.specs.Joining.{named};

use std::alloc::{AllocError, Global};
use std::marker::Model;
use vtl_sets::DataSet;
use vtl_syntax::JoinKind;
use vtl_text::Txt;

/// An operand of a join.
pub struct Operand {
    /// The data set.
    pub set: DataSet,
    /// The name that it has in the join.
    pub alias: Txt,
}

// Written out, so that a proof sees one call and not the drop of each part.
impl Drop for Operand {
    fn drop(self) {
        let Operand {
            set: _set,
            alias: _alias,
        } = self;
    }
}

impl Operand {
    // A data set, which is shared, with its alias.
    fn of(alloc: Global, set: &DataSet, alias: &Txt) -> Result<Operand, AllocError>
        ensures { IfOk result (λ o. o ≡ named set.now alias.now) }
    {
        Ok(Operand {
            set: set.copy(alloc)?,
            alias: alias.share()?,
        })
    }
}

/// A join in the making. A contract sees the kind of its steps, of which there may be none yet, and the operands so far
/// with their aliases.
pub struct Joined {
    kind: Option<JoinKind>,
    pub(crate) operands: Vec<Operand>,
}

// Written out, so that a proof sees one call and not the drop of each part.
impl Drop for Joined {
    fn drop(self) {
        let Joined {
            kind: _kind,
            operands: _operands,
        } = self;
    }
}

impl Model for Joined {
    ghost use Rattle.vtl_join.specs.Joining.{Joining};

    ghost Value = { Joining };

    ghost view = { λ j. record { kind = j.kind; operands = j.operands.items } };
}

/// A join of one operand, whose points are shared. It fails only if memory runs out.
pub fn open(alloc: Global, a: &DataSet, alias: &Txt) -> Result<Joined, AllocError>
    ensures { IfOk result (λ j. j ≡ record { kind = Option.None; operands = named a.now alias.now ∷ [] }) }
{
    let mut operands = Vec::new(alloc);
    operands.push(Operand::of(alloc, a, alias)?)?;
    Ok(Joined {
        kind: None,
        operands,
    })
}

/// The join of one more operand, whose points are shared; every step of a join is of one kind. It takes no step for a
/// point. It fails only if memory runs out.
pub fn step(
    alloc: Global,
    kind: JoinKind,
    j: Joined,
    b: &DataSet,
    alias: &Txt,
) -> Result<Joined, AllocError>
    requires { IfSome j.kind (λ before. before ≡ kind) }
    ensures { IfOk result (λ next. next ≡ record { kind = Option.Some kind; operands = j.operands ++ named b.now alias.now ∷ [] }) }
{
    let mut joined = j;
    joined.operands.push(Operand::of(alloc, b, alias)?)?;
    joined.kind = Some(kind);
    Ok(joined)
}
