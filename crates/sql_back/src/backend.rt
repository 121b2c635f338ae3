// The back end that runs scripts by their text in SQL.
ghost use Rattle.std.specs.Prelude.{◌≡◌};
ghost use Rattle.sql_back.specs.Texts.{HasTextOf};

use crate::{TextEngine, text_of};
use std::alloc::Global;
use vtl_backend::Backend;
use vtl_check::Checked;
use vtl_rows::{Inputs, Outputs};
use vtl_scalar::RunErr;

/// The back end that hands the text of a script to an engine.
#[derive(Drop)]
pub struct SqlBack<E> {
    engine: E,
}

impl<E: TextEngine> SqlBack<E> {
    /// A back end over an engine. It takes no memory.
    pub fn new(engine: E) -> SqlBack<E>
        ensures { result.engine ≡ engine }
    {
        SqlBack { engine }
    }

    /// The engine.
    pub fn engine(&self) -> &E
        ensures { result.now ≡ self.now.engine }
    {
        &self.engine
    }
}

impl<E: TextEngine> Backend for SqlBack<E> {
    ghost work = { λ _. 0 };

    ghost told = { λ b t. HasTextOf t (E.last b.engine) };

    fn run(
        &mut self,
        alloc: Global,
        script: &Checked,
        inputs: &Inputs,
        out: &mut Outputs,
    ) -> Result<(), RunErr> {
        let text = text_of(alloc, script)?;
        self.engine.run_text(alloc, text, inputs, out)
    }
}
