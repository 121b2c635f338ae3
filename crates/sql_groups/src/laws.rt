// Laws of the definitions.
ghost use Rattle.std.specs.List.{AllByRecursion};
ghost use Rattle.vtl_decimal.specs.Settings.{Settings};
ghost use Rattle.sql_tree.specs.Trees.{QueryTree};
ghost use Rattle.sql_check_parts.specs.Queries.{query_columns};
ghost use Rattle.sql_check_parts.specs.Queries as typing;
ghost use Rattle.sql_check_parts.specs.Scopes.{Tables};
ghost use Rattle.sql_check_laws.specs.Selects.{IsQueryTyped};
ghost use Rattle.sql_meaning.specs.Tables.{kinds_of};
ghost use Rattle.sql_groups.specs.Resolved.{AreLifted};

/// The kinds of the items of each select of a typed query are lifted to those of its columns.
#[tactic(auto, using(crate::proofs::LiftedLemmas::all_are_lifted))]
pub fn items_are_lifted_to_columns()
    ensures { (p : Settings) (tables : Tables) (q : QueryTree) → IsQueryTyped p tables q → AllByRecursion (λ s. AreLifted (kinds_of (query_columns tables q)) (typing.kinds_of tables s)) q }
{}
