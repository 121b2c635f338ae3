// The rows of a join.
ghost use Rattle.std.specs.Prelude.{◌≡◌, ℕ, Bool, List};
ghost use Rattle.vtl_cell.specs.Row.{Row};
ghost use Rattle.vtl_lists.specs.Perm.{Perm};
ghost use Rattle.sql_tree.specs.Trees as tree;
ghost use Rattle.sql_tree.specs.Trees.{Exp};
ghost use Rattle.sql_tree.specs.declared.parts.Source.{Source};
ghost use Rattle.sql_tree.specs.declared.word_groups.JoinKind.{JoinKind};
ghost use Rattle.sql_tree.specs.declared.word_groups.JoinKind.TheVariants as joining;
ghost use Rattle.sql_meaning.specs.From.{Joined, holds, joined_rows, with_join};
ghost use Rattle.sql_meaning.specs.Plans.{IsEqualityJoin, conjuncts};
ghost use Rattle.sql_meaning.specs.Tables.{Base};
ghost use Rattle.sql_meaning_laws.specs.Joins.{have_equal_cells, joined_with, matched, rows_joined, view_of};

/// The rows of a join are, each as often, the pairs at which ON is true; those of LEFT are besides the rows on the left
/// that meet none, beside nulls; those of FULL besides the rows on the right that meet none, behind nulls.
///
/// - `inner`: the rows of INNER are also in this order, each row on the left with each on the right in turn.
/// - `rows`: so for any test of pairs.
/// - `sources`: so in FROM, where the test is that ON is true.
pub fn joins_are_pairs_and_what_meets_none()
    ensures inner { (test : Row → Bool) (n m : ℕ) (left right : List Row) → joined_rows joining.Inner test n m left right ≡ matched test left right }
    ensures rows { (kind : JoinKind) (test : Row → Bool) (n m : ℕ) (left right : List Row) → Perm (joined_rows kind test n m left right) (rows_joined kind test n m left right) }
    ensures sources { (b : Base) (f : Joined) (kind : JoinKind) (s : Source) (e : Exp) → Perm (with_join b f (tree.on kind s e)).rows (joined_with b f kind s (holds (view_of b f s) e)) }
{}

/// The pairs of a join whose ON is a conjunction of equalities of a column on each side are those whose cells are equal,
/// and not null, in each equality.
///
/// - `faults`: such an ON has no fault.
pub fn equality_joins_pair_equal_cells()
    ensures rows { (b : Base) (f : Joined) (kind : JoinKind) (s : Source) (e : Exp) → IsEqualityJoin (tree.on kind s e) → Perm (with_join b f (tree.on kind s e)).rows (joined_with b f kind s (have_equal_cells (view_of b f s) (conjuncts e))) }
    ensures faults { (b : Base) (f : Joined) (kind : JoinKind) (s : Source) (e : Exp) → IsEqualityJoin (tree.on kind s e) → (with_join b f (tree.on kind s e)).fault ≡ f.fault }
{}
