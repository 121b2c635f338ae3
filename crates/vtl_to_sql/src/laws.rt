// Laws of translated scripts.
//
// That a whole script is typed is shown over data sets without points: there no expression has a fault, so every
// table of the script is made, and typing does not see rows.
//
// What translation asks of a script is said on trees (specs/Conditions.antt) and asks nothing of the points. That an
// accepted script meets it is shown by a walk over typing, which tells the words that nodes take from the script; the
// names of all other columns follow from the structures that typing gives. Both are in `result_laws`
// (proofs/WordedTyping.antt, proofs/Names.antt). A name stands behind an alias only inside the body of a join, whose
// last naming gives the names back. That a ruleset has a rule comes from its definition, which the walk follows to its
// calls (proofs/WordedRules.antt there). What only a program can tell is a premise (specs/Accepted.antt): that
// constants are in the range of their types and texts of rules are texts, and that tables, operands and rules can be
// numbered; a union of many names is one node, so the limit on nodes does not bound the tables.
//
// An integer outside the profile is no number: where `check` shows it as an imbalance, null stands there, and SQL has a
// fault. So the laws of meaning speak of data sets of the profile, as those are that a back end runs over.
ghost use Rattle.std.specs.Prelude.{◌≡◌, ◌≤◌, ◌<◌, ◌+◌, ◌^◌, ℕ, List, length, true};
ghost use Rattle.vtl_cell.specs.Row.{Row};
ghost use Rattle.vtl_decimal.specs.Settings.{Settings};
ghost use Rattle.vtl_tree.specs.Environment.{Environment, known_in};
ghost use Rattle.vtl_tree.specs.NotNull.{NotNull};
ghost use Rattle.vtl_tree.specs.Structure.{IsStructure, columns_of};
ghost use Rattle.vtl_syntax.specs.Written.{AreWritten};
ghost use Rattle.vtl_tree.specs.Structures.{AreStructures, Named, is_declarable};
ghost use Rattle.vtl_tree.specs.declared.structure.Structure.{Structure};
ghost use Rattle.vtl_meaning.specs.Profiles.{AllAreOfProfile};
ghost use Rattle.vtl_scripts.specs.Meaning.{AreDataSets, Statement, meaning};
ghost use Rattle.vtl_tree.specs.Trees.{NodeTree};
ghost use Rattle.vtl_check.specs.Checked.{IsTyped, TypedScript, nodes_of, tree_of};
ghost use Rattle.vtl_check.specs.Uses.{reads};
ghost use Rattle.vtl_backend.specs.Statements.{statements_of};
ghost use Rattle.sql_tree.specs.Formed.{PrintableScript};
ghost use Rattle.sql_check_parts.specs.Statements.{IsTypedScript, input_columns};
ghost use Rattle.sql_meaning.specs.Inputs.{IsInputData};
ghost use Rattle.sql_meaning.specs.Scripts.{Inputs, script_value};
ghost use Rattle.vtl_to_sql.specs.Accepted.{AreFew, AreHeld};
ghost use Rattle.vtl_to_sql.specs.Conditions.{HasFewTables, IsScript};
ghost use Rattle.vtl_to_sql.specs.Exports.{AreRead, exported_as};
ghost use Rattle.vtl_to_sql.specs.Inputs.{AreAsked, AreTaken, sets_read};
ghost use Rattle.selects_to_sql.specs.Runs.{entries};
ghost use Rattle.vtl_to_sql.specs.Scripts.{input_of, script_for};
ghost use Rattle.selects_to_sql.specs.Tables.{first_number};
ghost use Rattle.vtl_to_sql.specs.Tables.{made_of};

/// Over the data sets that a script reads, whose integers are of the profile, their rows in any order, the script in SQL
/// exports the outputs in order, each sorted by its identifiers; or it has the same fault with the name of the same result.
pub fn scripts_are_translated()
    ensures { (p : Settings) (ls : NotNull) (reads : Named) (ss : List Statement) (env : Environment) (inputs : Inputs) → IsScript p reads ss → known_in env ≡ reads → AreDataSets env → AllAreOfProfile p env → AreRead inputs env → script_value (script_for p ls reads ss) inputs ≡ exported_as (meaning p ss env) }
{}

/// So over any rows of the profile that its INPUTs take it exports the outputs over the data sets of these rows.
pub fn scripts_are_translated_over_inputs()
    ensures { (p : Settings) (ls : NotNull) (reads : Named) (ss : List Statement) (inputs : Inputs) → IsScript p reads ss → AreTaken inputs ls reads → AllAreOfProfile p (sets_read inputs reads) → script_value (script_for p ls reads ss) inputs ≡ exported_as (meaning p ss (sets_read inputs reads)) }
{}

/// The script in SQL breaks no rule, and can be printed so that it reads back.
pub fn translated_scripts_are_lawful()
    ensures typed { (p : Settings) (ls : NotNull) (reads : Named) (ss : List Statement) → IsScript p reads ss → IsTypedScript (script_for p ls reads ss) }
    ensures printable { (p : Settings) (ls : NotNull) (reads : Named) (ss : List Statement) → IsScript p reads ss → PrintableScript (script_for p ls reads ss) }
{}

/// The columns of an INPUT in the order of a table are those of the data set that it reads, whichever of them are never
/// null.
pub fn inputs_have_their_columns()
    ensures { (ls : NotNull) (e : List ℕ × Structure) → IsStructure e.1 → input_columns (input_of ls e) ≡ entries (columns_of e.1) }
{}

/// An INPUT asks of its rows what the structure asks of the points of a data set, and that codes are those listed.
pub fn inputs_ask_for_data_sets()
    ensures given { (ls : NotNull) (e : List ℕ × Structure) (rows : List Row) → is_declarable e.1 ≡ true → IsInputData (input_of ls e) rows → AreAsked e.1 rows }
    ensures taken { (ls : NotNull) (e : List ℕ × Structure) (rows : List Row) → is_declarable e.1 ≡ true → AreAsked e.1 rows → IsInputData (input_of ls e) rows }
{}

/// A script that the checker accepted can be translated, where its constants are values that a program holds, and a
/// program can number its tables. It reads the declared data sets that its expressions name, and its statements are those
/// that a back end runs.
pub fn accepted_scripts_are_translated()
    ensures { (t : TypedScript) → t.settings.scale ≤ 9 → AreStructures t.declared → IsTyped t → AreWritten (tree_of t) → AreHeld (nodes_of t) → AreFew t.settings (statements_of t) → IsScript t.settings (reads t.declared (nodes_of t)) (statements_of t) }
{}

/// Behind the tables of an expression comes the next number. So a statement has few tables where a program can hold that
/// number.
pub fn tables_are_counted()
    ensures counted { (p : Settings) (target : List ℕ) (n : NodeTree) (k : ℕ) → (made_of p target n k).next ≡ k + length (made_of p target n k).tables }
    ensures few { (p : Settings) (s : Statement) → (made_of p s.result s.node first_number).next < 2 ^ 64 → HasFewTables p s }
{}
