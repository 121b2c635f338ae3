// What statements have given so far.
ghost use Rattle.std.specs.Prelude.{◌≡◌};
ghost use Rattle.sql_check_parts.specs.Statements.{nothing};
ghost use Rattle.sql_check.specs.Answers.{given_view};

use sql_check_parts::Tables;
use std::alloc::Global;
use vtl_text::ByName;

/// The tables that statements have given, and the names of those that they have exported.
#[derive(Drop)]
pub struct SoFar {
    pub tables: Tables,
    pub exported: ByName<()>,
}

impl SoFar {
    /// What is given before any statement.
    pub fn new(alloc: Global) -> SoFar
        ensures { given_view result ≡ nothing }
    {
        SoFar {
            tables: Tables::new(alloc),
            exported: ByName::new(alloc),
        }
    }
}
