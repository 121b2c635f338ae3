// The measures that checks give.
ghost use Rattle.std.specs.Prelude.{◌≡◌, IfOk};
ghost use Rattle.vtl_tree.specs.Measures.{bool_var as bool_measure};
ghost use Rattle.vtl_tree.specs.Pairs.{errorcode as errorcode_measure, errorlevel as errorlevel_measure, imbalance as imbalance_measure};

use crate::measures::new_measure;
use std::alloc::{AllocError, Global};
use vtl_cell::Kind;
use vtl_tree::Component;

/// The measure of a truth.
pub fn bool_var(alloc: Global) -> Result<Component, AllocError>
    ensures { IfOk result (λ x. x ≡ bool_measure) }
{
    new_measure(alloc, "bool_var", Kind::Bool)
}

/// The measure of what two sides differ by.
pub fn imbalance(alloc: Global) -> Result<Component, AllocError>
    ensures { IfOk result (λ x. x ≡ imbalance_measure) }
{
    new_measure(alloc, "imbalance", Kind::Num)
}

/// The measure of an error's code.
pub fn errorcode(alloc: Global) -> Result<Component, AllocError>
    ensures { IfOk result (λ x. x ≡ errorcode_measure) }
{
    new_measure(alloc, "errorcode", Kind::Text)
}

/// The measure of an error's level.
pub fn errorlevel(alloc: Global) -> Result<Component, AllocError>
    ensures { IfOk result (λ x. x ≡ errorlevel_measure) }
{
    new_measure(alloc, "errorlevel", Kind::Int)
}
