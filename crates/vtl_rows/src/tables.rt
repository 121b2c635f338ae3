// Tables by name.
ghost use Rattle.std.specs.Prelude.{◌≡◌, ◌<◌, ◌++◌, [], ◌∷◌, length, None, option_map, slice_index_or, IfNone, OnOk, OnErr};
ghost use Rattle.std.specs.Map.{set_value};
ghost use Rattle.std.specs.Option.{option_copied, option_to_list};
ghost use Rattle.vtl_text.specs.Texts.{same_text};
ghost use Rattle.vtl_rows.specs.Named.{table_of};
ghost use Rattle.vtl_rows.specs.Tables.{listed};

use crate::{SharedTable, Table};
use std::alloc::{AllocError, Global};
use std::marker::Model;
use vtl_text::{ByName, Txt};

/// Named tables. A contract sees the list of the names with their tables, in the order in which they were put.
pub struct Tables {
    named: ByName<SharedTable>,
}

// Written out, so that a proof above sees one call and not the drop of each part.
impl Drop for Tables {
    fn drop(self) {
        let Tables { named: _named } = self;
    }
}

/// The tables that a script reads.
pub type Inputs = Tables;

/// The tables that a script makes.
pub type Outputs = Tables;

impl Model for Tables {
    ghost use Rattle.vtl_rows.specs.Named.{NamedTables};

    ghost Value = { NamedTables };

    ghost view = { λ t. t.named };
}

impl Tables {
    /// No tables.
    pub fn new(alloc: Global) -> Tables
        ensures { result ≡ [] }
    {
        Tables {
            named: ByName::new(alloc),
        }
    }

    /// Puts a table after the others. It fails only if memory runs out, and then leaves the others as they were.
    pub fn put(&mut self, alloc: Global, name: Txt, table: Table) -> Result<(), AllocError>
        requires { table_of name self.old ≡ None }
        ensures put { OnOk result (self.new ≡ self.old ++ (name, listed table) ∷ []) }
        ensures err { OnErr result (self.new ≡ self.old) }
    {
        self.put_shared(name, SharedTable::of(alloc, table)?)
    }

    /// Puts a table that may have other owners after the others. It fails only if memory runs out, and then leaves the
    /// others as they were.
    pub fn put_shared(&mut self, name: Txt, table: SharedTable) -> Result<(), AllocError>
        requires { table_of name self.old ≡ None }
        ensures put { OnOk result (self.new ≡ self.old ++ (name, table) ∷ []) }
        ensures err { OnErr result (self.new ≡ self.old) }
    {
        self.named.put(name, table)
    }

    /// The table of a name.
    pub fn get(&self, name: &Txt) -> Option<&Table>
        ensures { option_map (λ t. listed t.now) result ≡ table_of name.now self.now }
    {
        Some(self.shared(name)?.table())
    }

    /// The table of a name, to be shared.
    pub fn shared(&self, name: &Txt) -> Option<&SharedTable>
        ensures { option_copied result ≡ table_of name.now self.now }
    {
        self.named.get(name)
    }

    /// The name and the table at a place.
    pub fn at(&self, i: usize) -> (&Txt, &Table)
        requires { i < length self.now }
        ensures { (result.0.now, listed result.1.now) ≡ slice_index_or self.now i (result.0.now, listed result.1.now) }
    {
        let (name, shared) = self.named.at(i);
        (name, shared.table())
    }

    /// Puts a table in the place of the one of this name, and leaves all else. Where none has the name, all stay as they
    /// are. It takes no memory.
    pub fn set(&mut self, name: &Txt, table: Table)
        ensures { self.new ≡ set_value (same_text name.now) self.old (listed table) }
    {
        self.named.replace(name, SharedTable::holding(table));
    }

    /// Takes the last table, with its name, where there is one. It takes no memory.
    pub fn pop(&mut self) -> Option<(Txt, Table)>
        ensures last { self.old ≡ self.new ++ option_to_list (option_map (λ t. (t.0, listed t.1)) result) }
        ensures none { IfNone result (self.new ≡ []) }
    {
        let (name, shared) = self.pop_shared()?;
        Some((name, shared.into_held()))
    }

    /// Takes the last table, with its name, where there is one, to be shared. It takes no memory.
    pub fn pop_shared(&mut self) -> Option<(Txt, SharedTable)>
        ensures last { self.old ≡ self.new ++ option_to_list result }
        ensures none { IfNone result (self.new ≡ []) }
    {
        self.named.pop()
    }

    /// The number of tables.
    pub fn len(&self) -> usize
        ensures { result ≡ length self.now }
    {
        self.named.len()
    }
}
