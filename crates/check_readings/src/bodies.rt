// What the body of a join is.
ghost use Rattle.std.specs.Prelude.{◌≡◌, ◌∷◌, List, None, Option};
ghost use Rattle.vtl_syntax.specs.Trees as tree;
ghost use Rattle.vtl_syntax.specs.Trees.{ClauseTree, Exp, MaybeExp, MaybeTargets, Parts};
ghost use Rattle.vtl_syntax.specs.declared.parts.Comp.{Comp};
ghost use Rattle.vtl_syntax.specs.declared.parts.Keeping.{Keeping};
ghost use Rattle.vtl_syntax.specs.declared.parts.RenamePart.{RenamePart};
ghost use Rattle.vtl_syntax.specs.declared.word_groups.JoinKind.{JoinKind};
ghost use Rattle.vtl_tree.specs.Trees.{NodeTree};
ghost use Rattle.check_operators.specs.declared.places.Place.{Place};
ghost use Rattle.check_expressions.specs.Rulings.{Sight};
ghost use Rattle.check_expressions.specs.Typing.{clause_typed, typed};
ghost use Rattle.check_readings.specs.Bodies.{body_clauses, chain_in_turn, clause_among, in_brackets, join_in_turn};

/// A join is its operands, the joined set, the clauses of its body in turn on it, and the last naming. Clauses in
/// brackets behind a data set are the same in turn on that set: one clause is typed alike in both places, but that in a
/// body names may stand behind the aliases of the operands.
///
/// - `body`: the join.
/// - `brackets`: a data set with clauses in brackets behind it, one at least.
/// - `alike`: where there is no alias, a clause is typed as that of a data set.
pub fn join_bodies_are_clauses_in_turn()
    ensures body { (env : Sight) (at : Place) (kind : JoinKind) (ps : Parts) (u : Option (List Comp)) (f : MaybeExp) (m : MaybeTargets) (k : Option Keeping) (rs : Option (List RenamePart)) → typed env at (tree.join kind ps u f m k rs) ≡ join_in_turn env kind ps u (body_clauses f m k rs) }
    ensures brackets { (env : Sight) (at : Place) (e : Exp) (c : ClauseTree) (cs : List ClauseTree) → typed env at (in_brackets e (c ∷ cs)) ≡ chain_in_turn env e (c ∷ cs) }
    ensures alike { (env : Sight) (n : NodeTree) (c : ClauseTree) → clause_among env None n c ≡ clause_typed env n c }
{}
