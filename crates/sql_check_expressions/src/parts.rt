// The operands of calls and the values of CASE.
ghost use Rattle.std.specs.Prelude.{◌≡◌, ◌++◌, ◌∷◌, [], None, OnOk};
ghost use Rattle.sql_check_parts.specs.Rules.{lesser};

use sql_check_parts::{SqlRule, Told, lesser};
use std::alloc::{AllocError, Global};
use vtl_cell::Kind;

/// The kinds of parts, and the least of the rules that they break.
#[derive(Drop)]
pub(crate) struct Parts {
    pub(crate) kinds: Vec<Kind>,
    pub(crate) fault: Option<SqlRule>,
}

impl Parts {
    /// No parts.
    pub(crate) fn new(alloc: Global) -> Parts
        ensures kinds { result.kinds.items ≡ [] }
        ensures fault { result.fault ≡ None }
    {
        Parts {
            kinds: Vec::new(alloc),
            fault: None,
        }
    }

    /// Puts a part after the others.
    pub(crate) fn put(&mut self, part: Told) -> Result<(), AllocError>
        ensures kinds { OnOk result (self.new.kinds.items ≡ self.old.kinds.items ++ part.kind ∷ []) }
        ensures fault { OnOk result (self.new.fault ≡ lesser self.old.fault part.fault) }
    {
        self.kinds.push(part.kind)?;
        self.fault = lesser(self.fault, part.fault);
        Ok(())
    }
}
