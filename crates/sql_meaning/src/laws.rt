// Laws of the definitions.
//
// Which fault counts is said twice: by `join` along the definition, and as the worst of a list of all that is
// evaluated (`Faults`); a law says that both agree. The list is what a reader wants to see, `join` what a proof
// follows.
//
// ON is tried on every pair, also where a faulty one was found before: so what is evaluated depends on no order.
//
// A constant or a literal without a value, a column or a table that is not there count as null or nothing: no typed
// script has one, and a total definition needs no proof of typing inside.
//
// A script makes tables and exports, statement by statement (`statements_made`): cutting it in two is an equation.
ghost use Rattle.std.specs.Prelude.{◌≡◌, ◌⊎◌, ◌<◌, ◌≤◌, ◌+◌, ◌++◌, ◌∷◌, ℕ, List, None, Ok, Option, [], IfOk, count_by, drop, false, fold, length, map, slice_index_or, true};
ghost use Rattle.std.specs.List.{AllByRecursion};
ghost use Rattle.vtl_cell.specs.Kinds.{is_null};
ghost use Rattle.vtl_cell.specs.Outcome.{after, fault_in};
ghost use Rattle.vtl_cell.specs.Outcomes.{Same};
ghost use Rattle.vtl_lists.specs.Perm.{Perm};
ghost use Rattle.vtl_cell.specs.Row.{Row, same_row};
ghost use Rattle.vtl_decimal.specs.Settings.{Settings};
ghost use Rattle.vtl_cell.specs.Sorted.{Key, in_order};
ghost use Rattle.vtl_cell.specs.declared.kind.Kind.{Kind};
ghost use Rattle.vtl_cell.specs.declared.operator.ScalarOp.{ScalarOp};
ghost use Rattle.vtl_decimal.specs.declared.settings.Rounding.{Rounding};
ghost use Rattle.vtl_rows.specs.Named.{NamedTables};
ghost use Rattle.vtl_rows.specs.Tables.{fits_kinds};
ghost use Rattle.vtl_scalar.specs.KindLaws.{HasKind};
ghost use Rattle.sql_tree.specs.Trees as tree;
ghost use Rattle.sql_tree.specs.Trees.{Exp, QueryTree, ScriptTree, SelectTree, StatementTree, Text};
ghost use Rattle.sql_tree.specs.declared.parts.Column.{Column};
ghost use Rattle.sql_tree.specs.declared.statements.SqlInput.{SqlInput};
ghost use Rattle.sql_check_parts.specs.Expressions.{site};
ghost use Rattle.sql_check_parts.specs.Kinds.{kind_in};
ghost use Rattle.sql_check_parts.specs.Queries.{is_grouped, query_columns, scope_of};
ghost use Rattle.sql_check_parts.specs.Scopes.{Scope, Tables, row_of};
ghost use Rattle.sql_check_parts.specs.Statements.{Given, IsTypedScript};
ghost use Rattle.sql_check_parts.specs.Statements as typing;
ghost use Rattle.sql_check_laws.specs.Fits.{Fits};
ghost use Rattle.sql_check_laws.specs.Selects.{IsQueryTyped, IsSelectTyped};
ghost use Rattle.sql_check_laws.specs.Statements.{AreTyped};
ghost use Rattle.sql_meaning.specs.Early.{NamesEarly};
ghost use Rattle.sql_meaning.specs.Faults.{evaluations, first_evaluations, query_evaluations, worst};
ghost use Rattle.sql_meaning.specs.Fitting.{InputsFit, IsExportFit, IsFit};
ghost use Rattle.sql_meaning.specs.From.{holds, source_rows};
ghost use Rattle.sql_meaning.specs.Fronts.{IsFrontOf};
ghost use Rattle.sql_meaning.specs.Inputs.{IsInputData, key_width};
ghost use Rattle.sql_meaning.specs.Orders.{SameInputs, SameRows, with_rows};
ghost use Rattle.sql_meaning.specs.Plans.{IsPlan, NamesJoin, Ways, as_written, planned_value};
ghost use Rattle.sql_meaning.specs.Profiles.{AreOfProfile, HeldOfProfile, InputsOfProfile, IsLawful, TablesOfProfile};
ghost use Rattle.sql_meaning.specs.Scripts.{Inputs, Made, script_value, statements_made};
ghost use Rattle.sql_meaning.specs.Selects.{Wanted, appended, query_value, second_phase, select_value};
ghost use Rattle.sql_meaning.specs.Tables.{AreHeldFit, Base, HasColumns, RowsFit, TablesFit, base_over, kinds_of};
ghost use Rattle.sql_meaning.specs.Unions.{rows_as};
ghost use Rattle.sql_meaning.specs.Values.{View, at_rows, cell_at, value};
ghost use Rattle.sql_meaning.specs.Windows.{place_within};

// ---- order

/// Permuted tables give permuted rows, each as often, or the same fault: of FROM and WHERE, of what a select makes of its
/// rows of FROM and WHERE, and of whole queries.
pub fn queries_do_not_see_order()
    ensures sources { (b : Base) (other : Text → List Row) (s : SelectTree) → SameRows b.rows other → Same (source_rows b s) (source_rows (with_rows b other) s) }
    ensures phases { (b : Base) (items : List Wanted) (s : SelectTree) (rows other : List Row) → Perm rows other → Same (second_phase (at_rows b (scope_of b.tables s)) items s rows) (second_phase (at_rows b (scope_of b.tables s)) items s other) }
    ensures queries { (b : Base) (other : Text → List Row) (q : QueryTree) → SameRows b.rows other → Same (query_value b q) (query_value (with_rows b other) q) }
{}

/// Whatever the order of its inputs' rows, a script exports the same rows in the same order, and so the same text, or
/// has the same fault with the same name.
#[tactic(auto, using(crate::proofs::ScriptOrders::script_same))]
pub fn scripts_do_not_see_order()
    ensures { (s : ScriptTree) (x y : Inputs) → SameInputs x y → script_value s x ≡ script_value s y }
{}

/// The place of a row in its partition is where it stands among the rows in order: the row at each place of these, with
/// the number of those behind it that are the same, has that place.
#[tactic(auto, using(crate::proofs::Places::places_are))]
pub fn places_are_those_in_order()
    ensures { (keys : List Key) (partition : List Row) (i : ℕ) (d : Row) → i < length (in_order keys [] partition)
        → place_within keys partition (slice_index_or (in_order keys [] partition) i d, count_by (same_row (slice_index_or (in_order keys [] partition) i d)) (drop (i + 1) (in_order keys [] partition))) ≡ i }
{}

// ---- kinds

/// Tables of the program that have the columns over which a query is typed, and whose rows fit their own columns, are
/// tables whose rows fit.
#[tactic(auto, using(crate::proofs::HeldTables::held_fit))]
pub fn held_tables_fit()
    ensures { (p : Settings) (given : Tables) (held : NamedTables) → HasColumns given held → AreHeldFit held → TablesFit (base_over p given held) }
{}

/// The value of an expression that fits, at a row of FROM that fits, is null, of the expression's kind, or an integer
/// where that is number.
pub fn values_are_of_their_kind()
    ensures { (b : Base) (scope : Scope) (e : Exp) (r : Row) → Fits (site b.settings b.tables scope) None e → fits_kinds (row_of scope) r ≡ true → HasKind (kind_in scope e) (value (at_rows b scope) e r []) }
{}

/// The rows of a typed query have a cell for each of its columns, null or of exactly its kind, where those of the tables
/// do; so do the rows of FROM and WHERE of a typed select for each column of its sources.
pub fn typed_queries_fit()
    ensures sources { (b : Base) (s : SelectTree) → TablesFit b → IsSelectTyped b.settings b.tables s → IfOk (source_rows b s) (RowsFit (row_of (scope_of b.tables s))) }
    ensures queries { (b : Base) (q : QueryTree) → TablesFit b → IsQueryTyped b.settings b.tables q → IfOk (query_value b q) (RowsFit (kinds_of (query_columns b.tables q))) }
{}

/// What typed statements make, behind others, has the tables that typing gives; all rows fit their columns where those of
/// the inputs do. So each export of a typed script fits its columns.
pub fn typed_scripts_fit()
    ensures statements { (p : Settings) (inputs : Inputs) (ss : List StatementTree) (given : Given) (m : Made) → AreTyped p given ss → InputsFit inputs ss → IsFit given.tables m → IfOk (statements_made p inputs m ss) (IsFit (fold typing.after given ss).tables) }
    ensures scripts { (digits : Text) (rounding : Rounding) (ss : List StatementTree) (inputs : Inputs) → IsTypedScript (tree.setting digits rounding ∷ ss) → InputsFit inputs ss → IfOk (script_value (tree.setting digits rounding ∷ ss) inputs) (AllByRecursion IsExportFit) }
{}

/// Over tables whose integers are of the profile, the rows of FROM and WHERE and of queries hold integers of the profile
/// alone, and so do the tables that statements make.
pub fn results_are_of_the_profile()
    ensures sources { (b : Base) (s : SelectTree) → TablesOfProfile b → IfOk (source_rows b s) (AreOfProfile b.settings) }
    ensures queries { (b : Base) (q : QueryTree) → TablesOfProfile b → IfOk (query_value b q) (AreOfProfile b.settings) }
    ensures statements { (p : Settings) (inputs : Inputs) (ss : List StatementTree) (m : Made) → InputsOfProfile p inputs → HeldOfProfile p m.tables → IfOk (statements_made p inputs m ss) (λ n. HeldOfProfile p n.tables) }
{}

// ---- faults

/// The fault is the worst of those of all whole expressions and windows that are evaluated: of a select's ON and WHERE,
/// of a select, of all selects of a query. Worst is division by zero, wherever it comes, and then what is out of range.
pub fn faults_are_joined()
    ensures sources { (b : Base) (s : SelectTree) → fault_in (source_rows b s) ≡ worst (first_evaluations b s) }
    ensures selects { (b : Base) (kinds : List Kind) (s : SelectTree) → fault_in (select_value b kinds s) ≡ worst (evaluations b kinds s) }
    ensures queries { (b : Base) (q : QueryTree) → fault_in (query_value b q) ≡ worst (query_evaluations b q) }
{}

// ---- parts

/// A UNION ALL is its selects one by one: the rows of each, taken as a query of its own, with each cell made one of the
/// kind that the selects share at its place, one behind the other; or the worst of their faults.
#[tactic(auto, using(crate::proofs::UnionParts::union_parts))]
pub fn unions_are_their_selects()
    ensures { (b : Base) (q : QueryTree) → IsQueryTyped b.settings b.tables q
        → query_value b q ≡ appended (map (λ s. after (query_value b (s ∷ [])) (rows_as b.settings (kinds_of (query_columns b.tables q)))) q) }
{}

/// A script that is cut before a statement gives a front of the exports of the whole, or its very fault.
#[tactic(auto, using(crate::proofs::ScriptFronts::front_of))]
pub fn first_statements_give_a_front()
    ensures { (xs ys : ScriptTree) (inputs : Inputs) → IsFrontOf (script_value xs inputs) (script_value (xs ++ ys) inputs) }
{}

/// An equality of two columns does not hold at a row where either is null: so null meets no null in ON.
#[tactic(auto, using(crate::proofs::Readings::null_meets_none))]
pub fn null_meets_nothing()
    ensures { (v : View) (x y : Column) (r : Row) → (is_null (cell_at v r x) ≡ true) ⊎ (is_null (cell_at v r y) ≡ true) → holds v (tree.binary (tree.column x) ScalarOp.Equal (tree.column y)) r ≡ false }
{}

/// A select that is grouped without GROUP BY, and has no HAVING, has exactly one row, over no rows too.
#[tactic(auto, using(crate::proofs::Readings::one_row_of_all))]
pub fn one_group_gives_one_row()
    ensures { (b : Base) (kinds : List Kind) (s : SelectTree) (out : List Row) → is_grouped s ≡ true → s.group ≡ [] → s.having ≡ None → select_value b kinds s ≡ Ok out → length out ≡ 1 }
{}

/// An INPUT whose KEY is empty has at most one row, since all rows have that key.
#[tactic(auto, using(crate::proofs::Readings::one_without_key))]
pub fn no_key_allows_one_row()
    ensures { (s : SqlInput) (rows : List Row) → key_width s ≡ 0 → IsInputData s rows → length rows ≤ 1 }
{}

// ---- plans

/// A plan stands for its query: over tables whose rows fit and are of the profile it gives the query's rows up to order, or its fault. A query
/// without entries is a plan, which carries it out as it is written. So is any choice of joins whose ON is a conjunction
/// of equalities of a column on each side, for indexes, and of conjuncts that may be tried early.
pub fn plans_stand()
    ensures queries { (b : Base) (w : Ways) (q : QueryTree) → IsLawful b → IsPlan q w → IsQueryTyped b.settings b.tables q → Same (planned_value b w q) (query_value b q) }
    ensures written { (q : QueryTree) → IsPlan q as_written }
    ensures chosen { (q : QueryTree) (w : Ways) → AllByRecursion (NamesJoin q) w.indexed → AllByRecursion (NamesEarly q) w.early → IsPlan q w }
{}
