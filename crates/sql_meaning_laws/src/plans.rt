// What a plan lists.
ghost use Rattle.std.specs.Prelude.{◌≡◌, ◌&&◌, ◌<◌, ℕ, length, true};
ghost use Rattle.sql_tree.specs.Trees.{JoinTree, QueryTree, SelectTree};
ghost use Rattle.sql_meaning.specs.Early.{MayBeEarly};
ghost use Rattle.sql_meaning.specs.Plans.{IsAt, IsEqualityJoin, conjuncts_of};
ghost use Rattle.sql_meaning.specs.declared.plan.Early.{Early};
ghost use Rattle.sql_plan.specs.Chosen.{equality_joins, is_equality_join};
ghost use Rattle.sql_plan.specs.EarlyChosen.{early_parts, is_safe_select, may_precede};
ghost use Rattle.sql_meaning_laws.specs.Listed.{chosen_joins, chosen_parts};

/// A plan lists, of all joins of its query, by select and then by join, those whose ON is a conjunction of equalities of
/// a column on each side.
///
/// - `chosen`, `fit`: the test that the list is made by, and what a plan asks of each entry, say the same.
pub fn equality_joins_are_chosen_join_by_join()
    ensures joins { (q : QueryTree) → equality_joins q ≡ chosen_joins q }
    ensures chosen { (j : JoinTree) → is_equality_join j ≡ true → IsEqualityJoin j }
    ensures fit { (j : JoinTree) → IsEqualityJoin j → is_equality_join j ≡ true }
{}

/// A plan lists, of all parts of the WHEREs of its query, by select and then by part, each that may be tried before a
/// join, once, with the first such join.
///
/// - `chosen`, `fit`: the tests that this join is found by, and what a plan may ask of an entry, say the same.
pub fn early_parts_are_chosen_part_by_part()
    ensures parts { (q : QueryTree) → early_parts q ≡ chosen_parts q }
    ensures chosen { (s : SelectTree) (e : Early) → is_safe_select s ≡ true → e.join < length s.joins → IsAt (λ x. may_precede s x e.join ≡ true) e.conjunct (conjuncts_of s.condition) → MayBeEarly s e }
    ensures fit { (s : SelectTree) (e : Early) → MayBeEarly s e → (is_safe_select s ≡ true) × (e.join < length s.joins) × IsAt (λ x. may_precede s x e.join ≡ true) e.conjunct (conjuncts_of s.condition) }
{}
