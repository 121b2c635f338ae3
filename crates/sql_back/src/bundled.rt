// The bundled engine.
ghost use Rattle.std.specs.Prelude.{◌≡◌, None};

use crate::TextEngine;
use crate::text_runs::run_text;
use std::alloc::Global;
use std::marker::Model;
use vtl_rows::{Inputs, Outputs};
use vtl_scalar::RunErr;

/// The engine of this repository: it reads a text by the parser of the dialect and runs it. It holds the text that it
/// was handed last; a contract sees the bytes of that text.
#[derive(Drop)]
pub struct Bundled {
    last: Option<String>,
}

impl Model for Bundled {
    ghost use Rattle.std.specs.Prelude.{ℕ, List, Option, option_map, string_bytes};

    ghost Value = { Option (List ℕ) };

    ghost view = { λ b. option_map string_bytes b.last };
}

impl Bundled {
    /// An engine that was handed no text. It takes no memory.
    pub fn new() -> Bundled
        ensures { result ≡ None }
    {
        Bundled { last: None }
    }
}

impl TextEngine for Bundled {
    ghost last = { λ b. b };

    fn run_text(
        &mut self,
        alloc: Global,
        text: String,
        inputs: &Inputs,
        out: &mut Outputs,
    ) -> Result<(), RunErr> {
        let ran = run_text(alloc, &text, inputs, out);
        self.last = Some(text);
        ran
    }
}
