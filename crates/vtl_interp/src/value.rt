// Data sets as they are evaluated.
ghost use Rattle.std.specs.Prelude.{◌≡◌, IfOk};
ghost use Rattle.vtl_interp.specs.Values.{value_view};

use std::alloc::{AllocError, Global};
use vtl_sets::DataSet;

/// A data set that an expression gives: one that has a name is lent.
#[derive(Drop)]
pub enum Value<'a> {
    Lent(&'a DataSet),
    Made(DataSet),
}

impl<'a> Value<'a> {
    /// The data set.
    pub fn data(&self) -> &DataSet
        ensures { result.now ≡ value_view self.now }
    {
        match self {
            Value::Lent(data) => data,
            Value::Made(data) => data,
        }
    }

    /// The data set, owned: a lent one is copied. It fails only if memory runs out.
    pub fn into_data(self, alloc: Global) -> Result<DataSet, AllocError>
        ensures { IfOk result (λ d. d ≡ value_view self.entry) }
    {
        match self {
            Value::Lent(data) => data.copy(alloc),
            Value::Made(data) => Ok(data),
        }
    }
}
