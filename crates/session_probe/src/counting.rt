// The interpreter, and how many transformations it carried out.
use sql_back::{Bundled, SqlBack};
use std::alloc::Global;
use vtl_backend::Backend;
use vtl_check::Checked;
use vtl_interp::Interp;
use vtl_rows::{Inputs, Outputs};
use vtl_scalar::RunErr;

// A back end that may tell how many transformations it carried out.
pub(crate) trait Counted: Backend {
    fn carried_out(&self) -> Option<usize>;
}

// The interpreter, and how many transformations it carried out.
#[derive(Drop)]
pub(crate) struct Counting {
    interp: Interp,
    count: usize,
}

impl Counting {
    pub(crate) fn new() -> Counting {
        Counting {
            interp: Interp,
            count: 0,
        }
    }
}

impl Backend for Counting {
    ghost work = { λ c. c.count };

    fn run(
        &mut self,
        alloc: Global,
        script: &Checked,
        inputs: &Inputs,
        out: &mut Outputs,
    ) -> Result<(), RunErr> {
        self.count = self.count.saturating_add(script.nodes().len());
        self.interp.run(alloc, script, inputs, out)
    }
}

impl Counted for Counting {
    fn carried_out(&self) -> Option<usize> {
        Some(self.count)
    }
}

impl Counted for SqlBack<Bundled> {
    fn carried_out(&self) -> Option<usize> {
        None
    }
}
