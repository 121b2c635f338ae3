// Tables by name.
ghost use Rattle.std.specs.Option.{option_copied};
ghost use Rattle.std.specs.Map.{keys_of};
ghost use Rattle.std.specs.Prelude.{◌≡◌, ◌++◌, ◌∷◌, [], false, OnOk};
ghost use Rattle.sql_check_parts.specs.Scopes.{columns_of, is_among};

use crate::Columns;
use std::alloc::{AllocError, Global};
use std::marker::Model;
use vtl_text::{ByName, Txt};

/// The tables that statements give. A contract sees the list of their names with their columns.
#[derive(Drop)]
pub struct Tables {
    named: ByName<Columns>,
}

impl Model for Tables {
    ghost use Rattle.sql_check_parts.specs.Scopes as scopes;

    ghost Value = { scopes.Tables };

    ghost view = { λ t. t.named };
}

impl Tables {
    /// No tables.
    pub fn new(alloc: Global) -> Tables
        ensures { result ≡ [] }
    {
        Tables {
            named: ByName::new(alloc),
        }
    }

    /// The columns of a table.
    pub fn columns(&self, name: &Txt) -> Option<&Columns>
        ensures { option_copied result ≡ columns_of self.now name.now }
    {
        self.named.get(name)
    }

    /// Whether a table has this name.
    pub fn has(&self, name: &Txt) -> bool
        ensures { result ≡ is_among name.now (keys_of self.now) }
    {
        self.named.has(name)
    }

    /// Puts a table after the others, under a name that none has yet. It fails only if memory runs out.
    pub fn put(&mut self, name: &Txt, columns: Columns) -> Result<(), AllocError>
        requires { is_among name.now (keys_of self.old) ≡ false }
        ensures { OnOk result (self.new ≡ self.old ++ (name.now, columns) ∷ []) }
    {
        self.named.put(name.share()?, columns)
    }
}
