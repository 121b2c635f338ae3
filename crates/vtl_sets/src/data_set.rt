// Data sets that are kept in tables.
ghost use Rattle.std.specs.Prelude.{◌≡◌, IfOk, List};
ghost use Rattle.vtl_cell.specs.Outcome.{Outcome};
ghost use Rattle.vtl_cell.specs.Row.{Row};
ghost use Rattle.vtl_rows.specs.Tables.{listed};
ghost use Rattle.vtl_scalar.specs.Answers.{Answers, AnswersBy};
ghost use Rattle.vtl_tree.specs.DataSet.{IsDataSet};
ghost use Rattle.vtl_sets.specs.DataSets.{data_set, with_structure};
ghost use Rattle.vtl_sets.specs.TableOf.{IsTableOf};

use std::alloc::{AllocError, Global};
use std::marker::Model;
use vtl_rows::{SharedTable, Table};
use vtl_scalar::ScalarErr;
use vtl_tree::{Structure, share_structure};

/// A data set: its structure, and a table of its points with the structure's columns. A contract sees the structure and
/// the list of the points.
#[derive(Drop)]
pub struct DataSet {
    structure: Structure,
    table: SharedTable,
}

impl Model for DataSet {
    ghost use Rattle.vtl_tree.specs.Environment as meaning;
    ghost use Rattle.vtl_sets.specs.DataSets.{data_set};
    ghost use Rattle.vtl_sets.specs.TableOf.{IsTableOf};

    ghost Value = { meaning.DataSet };

    ghost view = { λ d. data_set d.structure d.table.rows };

    ghost invariant = { λ d. IsTableOf d.structure d.table };
}

impl DataSet {
    /// The data set of a table that is one of this structure, and that may have other owners. The structure is shared. It
    /// fails only if memory runs out.
    pub fn shared(
        alloc: Global,
        structure: &Structure,
        table: SharedTable,
    ) -> Result<DataSet, AllocError>
        requires { IsTableOf structure.now table }
        ensures { IfOk result (λ d. d ≡ data_set structure.now table.rows) }
    {
        Ok(DataSet {
            structure: share_structure(alloc, structure)?,
            table,
        })
    }

    /// The data set of a table that is one of this structure, which is shared. It fails only if memory runs out.
    pub fn of(alloc: Global, structure: &Structure, table: Table) -> Result<DataSet, AllocError>
        requires { IsTableOf structure.now (listed table) }
        ensures { IfOk result (λ d. d ≡ data_set structure.now table.rows) }
    {
        let table = SharedTable::of(alloc, table)?;
        DataSet::shared(alloc, structure, table)
    }

    /// The data set of the table that was answered, which is one of this structure; or the fault that was answered,
    /// which may be that memory ran out. The structure is shared.
    pub fn answered(
        alloc: Global,
        structure: &Structure,
        table: Result<Table, ScalarErr>,
    ) -> Result<DataSet, ScalarErr>
        requires { IfOk table (λ t. IsTableOf structure.now (listed t)) }
        ensures { (m : Outcome (List Row)) → AnswersBy (λ t. t.rows) table m → Answers result (with_structure structure.now m) }
    {
        match table {
            Ok(table) => Ok(DataSet::of(alloc, structure, table)?),
            Err(error) => Err(error),
        }
    }

    /// The structure.
    pub fn structure(&self) -> &Structure
        ensures structure { result.now ≡ self.now.structure }
        ensures points { IsDataSet self.now.structure self.now.points }
    {
        &self.structure
    }

    /// The table of the points.
    pub fn table(&self) -> &Table
        ensures points { result.now.rows ≡ self.now.points }
        ensures table { IsTableOf self.now.structure (listed result.now) }
    {
        self.table.table()
    }

    /// One more owner of the table of the points. It fails only if memory runs out.
    pub fn share_table(&self) -> Result<SharedTable, AllocError>
        ensures points { IfOk result (λ t. t.rows ≡ self.now.points) }
        ensures table { IfOk result (IsTableOf self.now.structure) }
    {
        self.table.share()
    }

    /// The table of the points, with its other owners. It takes no memory.
    pub fn into_shared_table(self) -> SharedTable
        ensures points { result.rows ≡ self.points }
        ensures table { IsTableOf self.structure result }
    {
        self.table
    }

    /// The table of the points itself: it is copied where it has other owners. It fails only if memory runs out.
    pub fn into_table(self, alloc: Global) -> Result<Table, AllocError>
        ensures points { IfOk result (λ t. t.rows ≡ self.points) }
        ensures table { IfOk result (λ t. IsTableOf self.structure (listed t)) }
    {
        self.table.into_table(alloc)
    }

    /// A copy of the data set, whose table and texts are shared. It fails only if memory runs out.
    pub fn copy(&self, alloc: Global) -> Result<DataSet, AllocError>
        ensures { IfOk result (λ d. d ≡ self.now) }
    {
        DataSet::shared(alloc, &self.structure, self.table.share()?)
    }
}
