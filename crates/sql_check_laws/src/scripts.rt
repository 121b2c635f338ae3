// Laws of statements and scripts.
ghost use Rattle.std.specs.Prelude.{◌≡◌, ◌∷◌, ◌++◌, [], true, pos, List, fold, map};
ghost use Rattle.vtl_decimal.specs.Settings.{Settings};
ghost use Rattle.vtl_decimal.specs.declared.settings.Rounding.{Rounding};
ghost use Rattle.vtl_cell.specs.Literals.{lies_between};
ghost use Rattle.sql_tree.specs.Formed.{FormedScript, IsInput, IsStatement};
ghost use Rattle.sql_tree.specs.Grammar.{most_levels};
ghost use Rattle.sql_tree.specs.Trees as tree;
ghost use Rattle.sql_tree.specs.Trees.{QueryTree, StatementTree, Text};
ghost use Rattle.sql_tree.specs.View.{script_tree, statement_tree};
ghost use Rattle.sql_tree.specs.declared.statements.SqlExport.{SqlExport};
ghost use Rattle.sql_tree.specs.declared.statements.SqlInput.{SqlInput};
ghost use Rattle.sql_tree.specs.declared.statements.SqlScript.{SqlScript};
ghost use Rattle.sql_check_parts.specs.Queries.{query_columns};
ghost use Rattle.sql_check_parts.specs.Scopes.{Tables};
ghost use Rattle.sql_check_parts.specs.Statements.{Given, IsTypedScript, after, given_by, nothing, scale_written, script_settings, settings_of, statement_breaks};
ghost use Rattle.sql_check_laws.specs.Both.{Iff};
ghost use Rattle.sql_check_laws.specs.Selects.{AreColumns, IsQueryWhole};
ghost use Rattle.sql_check_laws.specs.Statements.{AreTyped, IsDeclared, IsExportTyped, IsInputTyped, IsStatementTyped};

/// A statement breaks no rule exactly where it is typed behind those before it.
#[tactic(auto, using(crate::proofs::TypedStatements::statement_typed))]
pub fn statements_are_typed()
    ensures { (p : Settings) (given : Given) (s : StatementTree) → Iff (statement_breaks p given s ≡ []) (IsStatementTyped p given s) }
{}

/// A script is typed exactly where its scale is at most 9 and its statements are typed.
pub fn scripts_are_typed()
    ensures { (digits : Text) (rounding : Rounding) (ss : List StatementTree) → Iff (IsTypedScript (tree.setting digits rounding ∷ ss)) ((lies_between (pos 0) (pos 9) (scale_written digits) ≡ true) × AreTyped (settings_of digits rounding) nothing ss) }
{}

/// Statements behind others are typed exactly where those are, and these behind what those give.
#[tactic(auto, using(crate::proofs::TypedStatements::typed_behind))]
pub fn statements_compose()
    ensures { (p : Settings) (given : Given) (xs ys : List StatementTree) → Iff (AreTyped p given (xs ++ ys)) (AreTyped p given xs × AreTyped p (fold after given xs) ys) }
{}

/// An input that is formed and typed has columns that can be a structure.
#[tactic(auto, using(crate::proofs::GivenColumns::inputs_declared))]
pub fn typed_inputs_are_declared()
    ensures { (tables : Tables) (s : SqlInput) → IsInput s → IsInputTyped tables s → IsDeclared s }
{}

/// Each statement of a script that is formed and typed, as a checked one is, is formed, and typed behind those before it.
pub fn checked_statements_are_typed()
    ensures { (script : SqlScript) (before behind : List StatementTree) (s : StatementTree) → FormedScript (script_tree script) → IsTypedScript (script_tree script) → map statement_tree script.statements ≡ before ++ s ∷ behind → IsStatement most_levels s × IsStatementTyped (script_settings (script_tree script)) (given_by before) s }
{}

/// Each INPUT of such a script has columns that can be a structure.
pub fn checked_inputs_are_declared()
    ensures { (script : SqlScript) (before behind : List StatementTree) (s : SqlInput) → FormedScript (script_tree script) → IsTypedScript (script_tree script) → map statement_tree script.statements ≡ before ++ tree.input s ∷ behind → IsDeclared s }
{}

/// Each CREATE of such a script has a query that is whole over the tables before it, and gives columns.
pub fn checked_creates_are_whole()
    ensures { (script : SqlScript) (before behind : List StatementTree) (name : Text) (q : QueryTree) → FormedScript (script_tree script) → IsTypedScript (script_tree script) → map statement_tree script.statements ≡ before ++ tree.create name q ∷ behind → IsQueryWhole (script_settings (script_tree script)) (given_by before).tables q × AreColumns (query_columns (given_by before).tables q) }
{}

/// Each EXPORT of such a script names a table before it, and is ordered by columns of it.
pub fn checked_exports_are_typed()
    ensures { (script : SqlScript) (before behind : List StatementTree) (s : SqlExport) → FormedScript (script_tree script) → IsTypedScript (script_tree script) → map statement_tree script.statements ≡ before ++ tree.export s ∷ behind → IsExportTyped (given_by before) s }
{}
