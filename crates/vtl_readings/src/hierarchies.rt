// Laws of hierarchies, item by item.
ghost use Rattle.std.specs.Prelude.{◌≡◌, List, Ok};
ghost use Rattle.std.specs.List.{AllByRecursion};
ghost use Rattle.vtl_decimal.specs.Settings.{Settings};
ghost use Rattle.vtl_cell.specs.Outcomes.{Same};
ghost use Rattle.vtl_cell.specs.Row.{Row};
ghost use Rattle.vtl_syntax.specs.declared.statements.HierRule.{HierRule};
ghost use Rattle.vtl_syntax.specs.declared.word_groups.HierInput.{HierInput};
ghost use Rattle.vtl_syntax.specs.declared.word_groups.HierInput.TheVariants as input;
ghost use Rattle.vtl_syntax.specs.declared.word_groups.HierOut.TheVariants as points;
ghost use Rattle.vtl_syntax.specs.declared.word_groups.Mode.{Mode};
ghost use Rattle.vtl_syntax.specs.declared.word_groups.Mode.TheVariants as mode;
ghost use Rattle.vtl_tree.specs.DataSet.{IsDataSet};
ghost use Rattle.vtl_tree.specs.Environment.{DataSet};
ghost use Rattle.vtl_tree.specs.declared.rules.HierRules.{HierRules};
ghost use Rattle.vtl_tree.specs.declared.structure.Structure.{Structure};
ghost use Rattle.vtl_meaning.specs.Operators.{left_of};
ghost use Rattle.vtl_rulings.specs.Hierarchies.{hierarchy_of};
ghost use Rattle.vtl_rulings.specs.HierarchyChecks.{Ruled, ruled_by};
ghost use Rattle.vtl_rulings.specs.HierarchyShapes.{IsHierarchyMade};
ghost use Rattle.vtl_readings.specs.Hierarchies.{EveryCheckHolds, IsOfLeftItem};

/// The points that a hierarchy computes are those of left items, for every mode and input: the item of each is the left
/// item of a rule with `=`, and its other identifiers are a combination that the operand has. No two of them have the
/// same identifiers, as `vtl_rulings::hierarchies_keep_data_sets` says.
pub fn hierarchies_compute_left_items()
    ensures { (p : Settings) (h : Ruled) (m : Mode) (i : HierInput) (rules : List HierRule) (a : DataSet) (s : Structure) (made : List Row) → IsHierarchyMade h rules a.structure s → IsDataSet a.structure a.points → hierarchy_of p h m i rules a points.Computed s ≡ Ok made → AllByRecursion (IsOfLeftItem h rules a s) made }
{}

/// A hierarchy under which every check holds changes nothing: with mode `non_null`, input `dataset` and output `all` it
/// gives the operand's points in the columns of the result, in any order, and has no fault.
pub fn hierarchies_that_hold_change_nothing()
    ensures { (p : Settings) (rules : HierRules) (a : DataSet) (s : Structure) → IsHierarchyMade (ruled_by rules a.structure) rules.rules a.structure s → IsDataSet a.structure a.points → EveryCheckHolds p (ruled_by rules a.structure) rules.rules a → Same (hierarchy_of p (ruled_by rules a.structure) mode.NonNull input.Dataset rules.rules a points.All s) (Ok (left_of a s)) }
{}
