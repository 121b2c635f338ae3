// Laws of inputs, and of what a run may leave out.
ghost use Rattle.std.specs.Prelude.{◌≡◌, List, Some};
ghost use Rattle.vtl_cell.specs.Row.{Row};
ghost use Rattle.vtl_rows.specs.Named.{NamedTables, table_of};
ghost use Rattle.vtl_rows.specs.Tables.{Listed};
ghost use Rattle.vtl_tree.specs.Structure.{IsStructure};
ghost use Rattle.vtl_sets.specs.TableOf.{IsTableOf};
ghost use Rattle.sql_tree.specs.Trees.{QueryTree, Text};
ghost use Rattle.sql_tree.specs.declared.statements.SqlInput.{SqlInput};
ghost use Rattle.sql_check_laws.specs.Statements.{IsDeclared};
ghost use Rattle.sql_meaning.specs.Orders.{with_rows};
ghost use Rattle.sql_meaning.specs.Selects.{query_value};
ghost use Rattle.sql_meaning.specs.Tables.{Base};
ghost use Rattle.sql_engine.specs.InputTables.{IsInputTable};
ghost use Rattle.sql_engine.specs.Reads.{EachOfQuery};
ghost use Rattle.sql_engine.specs.Structures.{structure_of};

/// What an INPUT of a typed script declares is a structure, and a table of one of its data sets is a table for the
/// INPUT.
#[tactic(auto, using(crate::proofs::DeclaredInputs::table_is_input))]
pub fn inputs_are_data_sets()
    ensures structures { (s : SqlInput) → IsDeclared s → IsStructure (structure_of s) }
    ensures tables { (s : SqlInput) (tables : NamedTables) (t : Listed) → table_of s.name tables ≡ Some t → IsTableOf (structure_of s) t → IsInputTable tables s }
{}

/// A query depends on the rows of the tables that it names in FROM and in EXISTS, and on those of no other.
#[tactic(auto, using(crate::proofs::OnlyRead::query_same))]
pub fn queries_depend_on_what_they_read()
    ensures { (b : Base) (other : Text → List Row) (q : QueryTree) → EachOfQuery (λ name. b.rows name ≡ other name) q → query_value b q ≡ query_value (with_rows b other) q }
{}
