// The tables that the program holds, by name.
//
// A text has no limit of size and its names may be chosen, so tables and columns are found by the order of names
// (`ByName`). The columns of a table are put in order once, when it is held: a select names them in no time that grows
// with their number.
ghost use Rattle.std.specs.Map.{set_value};
ghost use Rattle.std.specs.Option.{option_copied, option_map};
ghost use Rattle.std.specs.Prelude.{◌≡◌, ◌++◌, ◌∷◌, [], None, IfOk, OnErr, OnOk};
ghost use Rattle.vtl_text.specs.Texts.{same_text};
ghost use Rattle.vtl_rows.specs.Named.{table_of};
ghost use Rattle.vtl_rows.specs.Tables.{listed};
ghost use Rattle.sql_check_parts.specs.Scopes.{numbered, value_among};
ghost use Rattle.sql_from.specs.Held.{columns_held};

use crate::columns::{ColumnAt, columns_by_name};
use std::alloc::{AllocError, Global};
use std::marker::Model;
use vtl_rows::{SharedTable, Table};
use vtl_text::{ByName, Txt};

/// A table, and its columns by name. A contract sees the table.
pub struct HeldTable {
    table: SharedTable,
    columns: ByName<ColumnAt>,
}

// Written out, so that a proof above sees one call and not the drop of each part.
impl Drop for HeldTable {
    fn drop(self) {
        let HeldTable {
            table: _table,
            columns: _columns,
        } = self;
    }
}

impl Model for HeldTable {
    ghost use Rattle.vtl_rows.specs.Tables.{Listed};

    ghost Value = { Listed };

    ghost use Rattle.sql_from.specs.Columns.{AreFound};
    ghost use Rattle.sql_from.specs.Held.{columns_held};

    ghost view = { λ t. t.table };

    ghost invariant = { λ t. AreFound (columns_held t.table) t.columns };
}

impl HeldTable {
    /// A table with one owner. It fails only if memory runs out.
    pub fn of(alloc: Global, table: Table) -> Result<HeldTable, AllocError>
        ensures { IfOk result (λ t. t ≡ listed table) }
    {
        let shared = SharedTable::of(alloc, table)?;
        HeldTable::sharing(alloc, shared)
    }

    /// A table that may have other owners, whose columns are put in order of their names. It fails only if memory runs out.
    pub fn sharing(alloc: Global, table: SharedTable) -> Result<HeldTable, AllocError>
        ensures { IfOk result (λ t. t ≡ table) }
    {
        let columns = columns_by_name(alloc, table.table().columns())?;
        Ok(HeldTable { table, columns })
    }

    /// The table.
    pub fn table(&self) -> &Table
        ensures { listed result.now ≡ self.now }
    {
        self.table.table()
    }

    /// The table, to be shared. It takes no memory.
    pub fn into_shared(self) -> SharedTable
        ensures { result ≡ self }
    {
        let HeldTable {
            table,
            columns: _columns,
        } = self;
        table
    }

    // What is known of a column; of two of one name, of the first.
    pub(crate) fn column(&self, name: &Txt) -> Option<ColumnAt>
        ensures kind { option_map (λ c. c.kind) result ≡ value_among (columns_held self.now) name.now }
        ensures place { option_map (λ c. c.place) result ≡ value_among (numbered 0 (columns_held self.now)) name.now }
    {
        self.columns.get(name).copied()
    }
}

/// The tables that the program holds, by name. A contract sees the list of the names with their tables, in the order in
/// which they were put.
pub struct HeldTables {
    named: ByName<HeldTable>,
}

// Written out, so that a proof above sees one call and not the drop of each part.
impl Drop for HeldTables {
    fn drop(self) {
        let HeldTables { named: _named } = self;
    }
}

impl Model for HeldTables {
    ghost use Rattle.vtl_rows.specs.Named.{NamedTables};

    ghost Value = { NamedTables };

    ghost view = { λ t. t.named };
}

impl HeldTables {
    /// No tables.
    pub fn new(alloc: Global) -> HeldTables
        ensures { result ≡ [] }
    {
        HeldTables {
            named: ByName::new(alloc),
        }
    }

    /// Puts a table after the others, under a name that none has yet. It fails only if memory runs out, and then leaves the
    /// others as they were.
    pub fn put(&mut self, name: Txt, table: HeldTable) -> Result<(), AllocError>
        requires { table_of name self.old ≡ None }
        ensures put { OnOk result (self.new ≡ self.old ++ (name, table) ∷ []) }
        ensures err { OnErr result (self.new ≡ self.old) }
    {
        self.named.put(name, table)
    }

    // The table of a name, with its columns by name.
    pub(crate) fn held(&self, name: &Txt) -> Option<&HeldTable>
        ensures { option_copied result ≡ table_of name.now self.now }
    {
        self.named.get(name)
    }

    /// The table of a name.
    pub fn get(&self, name: &Txt) -> Option<&Table>
        ensures { option_map (λ t. listed t.now) result ≡ table_of name.now self.now }
    {
        Some(self.held(name)?.table())
    }

    /// Puts a table in place of the one of a name, and gives that one. Where none has the name, all stay as they are.
    pub fn replace(&mut self, name: &Txt, table: HeldTable) -> Option<HeldTable>
        ensures replaced { self.new ≡ set_value (same_text name.now) self.old table }
        ensures before { result ≡ table_of name.now self.old }
    {
        self.named.replace(name, table)
    }
}
