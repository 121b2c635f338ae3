// Results may be declared.
ghost use Rattle.std.specs.Prelude.{◌≡◌, true};
ghost use Rattle.std.specs.List.{AllByRecursion};
ghost use Rattle.vtl_syntax.specs.Written.{AreWritten};
ghost use Rattle.vtl_tree.specs.Structures.{AreStructures, is_declarable};
ghost use Rattle.vtl_tree.specs.Trees.{structure_of};
ghost use Rattle.vtl_check.specs.Checked.{IsTyped, TypedScript, nodes_of, tree_of};

/// Each result of a typed script that is written has a structure as it may be declared: components with distinct names
/// that are spelled as component names, each of a kind, as many as a structure may have, and codes at identifiers of
/// texts alone, where each stands once and none is empty.
pub fn results_are_declarable()
    ensures { (t : TypedScript) → AreStructures t.declared → AreWritten (tree_of t) → IsTyped t → AllByRecursion (λ n. is_declarable (structure_of n) ≡ true) (nodes_of t) }
{}
