// Laws of the definitions of data sets that are read.
ghost use Rattle.std.specs.Prelude.{◌≡◌, ◌≢◌, ℕ, List, Result, Ok, Err};
ghost use Rattle.vtl_lists.specs.Aliases.{Name};
ghost use Rattle.vtl_decimal.specs.Settings.{Settings};
ghost use Rattle.vtl_cell.specs.Row.{Row};
ghost use Rattle.vtl_rows.specs.Tables.{Listed};
ghost use Rattle.vtl_tree.specs.DataSet.{AreOfProfile, IsDataSet};
ghost use Rattle.vtl_tree.specs.Structure.{IsStructure};
ghost use Rattle.vtl_tree.specs.declared.structure.Structure.{Structure};
ghost use Rattle.vtl_csv.specs.InputFile.{Fault, Reads, dataset_rows};
ghost use Rattle.vtl_sets.specs.TableOf.{table_columns};
ghost use Rattle.vtl_csv.specs.Plain.{plain_columns};
ghost use Rattle.vtl_csv.specs.declared.input.InputErr.{InputErr};
ghost use Rattle.vtl_csv.specs.declared.input.InputErr.TheVariants.{OutOfMemory};

/// The rows that a CSV file holds are the points of a data set of its structure.
pub fn read_rows_are_a_data_set()
    ensures { (p : Settings) (s : Structure) (not_null : List Name) (text : List ℕ) (rows : List Row) → IsStructure s → dataset_rows p s not_null text ≡ Ok rows → IsDataSet s rows }
{}

/// Their integers are of the profile that the file is read in.
pub fn read_rows_are_of_the_profile()
    ensures { (p : Settings) (s : Structure) (not_null : List Name) (text : List ℕ) (rows : List Row) → IsStructure s → dataset_rows p s not_null text ≡ Ok rows → AreOfProfile p rows }
{}

/// A file gives one answer: two answers are the same, unless one says that memory ran out.
pub fn reading_is_determined()
    ensures { (s : Structure) (what : Result (List Row) Fault) (a b : Result Listed InputErr) → a ≢ Err OutOfMemory → b ≢ Err OutOfMemory → Reads s a what → Reads s b what → a ≡ b }
{}

/// What is read depends on the columns of a structure in their order alone, and of each on its name, its kind, its codes,
/// and on whether it is an identifier: of two structures that agree in these the same rows are read below the same columns.
pub fn reading_asks_for_identifiers_alone()
    ensures rows { (p : Settings) (s t : Structure) (not_null : List Name) (text : List ℕ) → IsStructure s → IsStructure t → plain_columns s ≡ plain_columns t → dataset_rows p s not_null text ≡ dataset_rows p t not_null text }
    ensures columns { (s t : Structure) → plain_columns s ≡ plain_columns t → table_columns s ≡ table_columns t }
{}
