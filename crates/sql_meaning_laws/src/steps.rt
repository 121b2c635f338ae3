// How many steps a join may take.
ghost use Rattle.std.specs.Prelude.{◌≡◌, ◌+◌, ◌∷◌, [], length};
ghost use Rattle.sql_tree.specs.Trees.{JoinTree, SelectTree};
ghost use Rattle.sql_check_parts.specs.Queries.{join_source};
ghost use Rattle.sql_meaning.specs.From.{joined};
ghost use Rattle.sql_meaning.specs.Tables.{Base, rows_from};
ghost use Rattle.sql_from.specs.Steps.{most_steps};

/// The steps that are promised of a select with one join are one for each row on the left, one for each on the right, and
/// one for each row that FROM gives.
pub fn one_join_takes_its_rows_and_those_it_gives()
    ensures { (b : Base) (s : SelectTree) (j : JoinTree) → s.joins ≡ j ∷ [] → most_steps b s ≡ length (rows_from b s.source) + length (rows_from b (join_source j)) + length (joined b s).rows }
{}
