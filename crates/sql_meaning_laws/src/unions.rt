// The columns of a union.
ghost use Rattle.std.specs.Prelude.{◌≡◌};
ghost use Rattle.sql_tree.specs.Trees.{QueryTree};
ghost use Rattle.sql_check_parts.specs.Queries.{query_columns, shared_kinds};
ghost use Rattle.sql_check_parts.specs.Scopes.{Tables};
ghost use Rattle.sql_meaning_laws.specs.Columns.{common_columns, common_kinds};

/// A query has at each place the kind that all its selects have in common there, as a CASE has that of its values. Its
/// columns have the names of its first select, each with this kind.
pub fn columns_of_unions_have_common_kinds()
    ensures kinds { (tables : Tables) (q : QueryTree) → shared_kinds tables q ≡ common_kinds tables q }
    ensures columns { (tables : Tables) (q : QueryTree) → query_columns tables q ≡ common_columns tables q }
{}
