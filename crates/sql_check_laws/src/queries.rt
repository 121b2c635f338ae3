// Laws of selects and queries.
ghost use Rattle.std.specs.List.{AllByRecursion};
ghost use Rattle.std.specs.Prelude.{◌≡◌, ◌≤◌, ◌∷◌, [], length};
ghost use Rattle.vtl_decimal.specs.Settings.{Settings};
ghost use Rattle.sql_tree.specs.Formed.{IsQuery};
ghost use Rattle.sql_tree.specs.Grammar.{most_levels};
ghost use Rattle.sql_tree.specs.Trees.{QueryTree, SelectTree};
ghost use Rattle.sql_check_parts.specs.Queries.{most_columns, query_breaks, query_columns, select_breaks};
ghost use Rattle.sql_check_parts.specs.Scopes.{Tables};
ghost use Rattle.sql_check_laws.specs.Both.{Iff, besides_null};
ghost use Rattle.sql_check_laws.specs.Selects.{AreColumns, IsQueryTyped, IsQueryWhole, IsSelectTyped};

/// A select breaks no rule exactly where it is typed.
pub fn selects_are_typed()
    ensures { (p : Settings) (tables : Tables) (s : SelectTree) → Iff (select_breaks p tables s ≡ []) (IsSelectTyped p tables s) }
{}

/// A query breaks no rule besides that of null columns exactly where it is typed.
#[tactic(auto, using(crate::proofs::TypedSelects::query_typed))]
pub fn queries_are_typed()
    ensures { (p : Settings) (tables : Tables) (q : QueryTree) → Iff (besides_null (query_breaks p tables q) ≡ []) (IsQueryTyped p tables q) }
{}

/// A query breaks no rule exactly where it is whole: typed, and no column of it null alone.
#[tactic(auto, using(crate::proofs::TypedSelects::query_whole))]
pub fn queries_are_whole()
    ensures { (p : Settings) (tables : Tables) (q : QueryTree) → Iff (query_breaks p tables q ≡ []) (IsQueryWhole p tables q) }
{}

/// One select is a typed query exactly where it is typed and has not too many items.
#[tactic(auto, using(crate::proofs::TypedSelects::one_typed))]
pub fn one_select_is_typed()
    ensures { (p : Settings) (tables : Tables) (s : SelectTree) → Iff (IsQueryTyped p tables (s ∷ [])) (IsSelectTyped p tables s × (length s.items ≤ most_columns)) }
{}

/// Each select of a typed query is one.
#[tactic(auto, using(crate::proofs::TypedSelects::each_typed))]
pub fn each_select_is_typed()
    ensures { (p : Settings) (tables : Tables) (q : QueryTree) → IsQueryTyped p tables q → AllByRecursion (λ s. IsQueryTyped p tables (s ∷ [])) q }
{}

/// A formed query that is whole gives from 1 to 1,024 columns of different names, and of kinds other than null.
#[tactic(auto, using(crate::proofs::GivenColumns::columns_are))]
pub fn typed_queries_give_columns()
    ensures { (p : Settings) (tables : Tables) (q : QueryTree) → IsQuery most_levels q → IsQueryWhole p tables q → AreColumns (query_columns tables q) }
{}
