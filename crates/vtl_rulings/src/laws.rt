// Laws of checks.
ghost use Rattle.std.specs.Prelude.{◌≡◌, ◌≤◌, ℕ, [], ◌∷◌, ◌++◌, IfOk, List, None, Ok, Option, Some, filter, is_some, length, map, option_map, true};
ghost use Rattle.std.specs.List.{filter_map, find};
ghost use Rattle.std.specs.Option.{IfSome, option_and_then};
ghost use Rattle.vtl_decimal.specs.Settings.{Settings};
ghost use Rattle.vtl_lists.specs.Apart.{all_apart};
ghost use Rattle.vtl_lists.specs.Perm.{Perm};
ghost use Rattle.vtl_cell.specs.Outcome.{after};
ghost use Rattle.vtl_cell.specs.Outcomes.{Same};
ghost use Rattle.vtl_cell.specs.Row.{Row, column_of};
ghost use Rattle.vtl_cell.specs.declared.cell.Cell.TheVariants as c;
ghost use Rattle.vtl_cell.specs.declared.kind.Kind.{Kind};
ghost use Rattle.vtl_syntax.specs.declared.statements.HierRule.{HierRule};
ghost use Rattle.vtl_syntax.specs.declared.word_groups.BasicOut.TheVariants as basic;
ghost use Rattle.vtl_syntax.specs.declared.word_groups.CheckOut.{CheckOut};
ghost use Rattle.vtl_syntax.specs.declared.word_groups.CheckOut.TheVariants as out;
ghost use Rattle.vtl_syntax.specs.declared.word_groups.HierInput.{HierInput};
ghost use Rattle.vtl_syntax.specs.declared.word_groups.HierOut.{HierOut};
ghost use Rattle.vtl_syntax.specs.declared.word_groups.HierOut.TheVariants as points;
ghost use Rattle.vtl_syntax.specs.declared.word_groups.Mode.{Mode};
ghost use Rattle.vtl_tree.specs.DataSet.{AreOfProfile, IsDataSet, look};
ghost use Rattle.vtl_tree.specs.Environment.{DataSet};
ghost use Rattle.vtl_tree.specs.Structure.{key_width, same_name};
ghost use Rattle.vtl_tree.specs.Trees.{PointRuleTree};
ghost use Rattle.vtl_tree.specs.declared.specifications.CheckSpec.{CheckSpec};
ghost use Rattle.vtl_tree.specs.declared.structure.Structure.{Structure};
ghost use Rattle.vtl_meaning.specs.Points.{cell_or_null, with_points};
ghost use Rattle.vtl_rulings.specs.Hierarchies.{computed, hierarchy_of, items_of, items_within};
ghost use Rattle.vtl_rulings.specs.HierarchyChecks.{Ruled, check_hierarchy_of};
ghost use Rattle.vtl_rulings.specs.HierarchyShapes.{IsHierarchyChecked, IsHierarchyMade};
ghost use Rattle.vtl_rulings.specs.Modes.{Items};
ghost use Rattle.vtl_rulings.specs.Outputs.{is_false};
ghost use Rattle.vtl_rulings.specs.PointChecks.{check_of, datapoint_of, false_without, point_rules, ruled_point, truth_of, truth_place};
ghost use Rattle.vtl_rulings.specs.Running.{AreOrdered, made_in_run, ran};
ghost use Rattle.vtl_rulings.specs.Shaped.{IsChecked, IsPointChecked};
ghost use Rattle.vtl_tree.specs.RuleItems.{left_item};

/// Checks give data sets of the structure that typing gives: as many cells as columns, each null or of its column's
/// kind, no identifier null, and each tuple of identifiers once. So a check by rules shows each point or combination and
/// rule at most once.
pub fn checks_keep_data_sets()
    ensures datapoint { (p : Settings) (o : CheckOut) (rules : List PointRuleTree) (a : DataSet) (s : Structure) (made : List Row) → IsPointChecked p o rules a.structure s → IsDataSet a.structure a.points → datapoint_of p o rules a ≡ Ok made → IsDataSet s made }
    ensures check { (p : Settings) (spec : CheckSpec) (a : DataSet) (imbalance : Option DataSet) (s : Structure) → IsChecked p spec (option_map (λ e. e.structure) imbalance) a.structure s → IsDataSet a.structure a.points → IfSome imbalance (λ e. IsDataSet e.structure e.points) → IsDataSet s (check_of p spec a imbalance) }
    ensures hierarchy { (p : Settings) (o : CheckOut) (h : Ruled) (m : Mode) (rules : List HierRule) (a : DataSet) (s : Structure) (made : List Row) → IsHierarchyChecked o h rules a.structure s → IsDataSet a.structure a.points → check_hierarchy_of p o h m a rules ≡ Ok made → IsDataSet s made }
{}

/// So do hierarchies, for every mode, input and output.
pub fn hierarchies_keep_data_sets()
    ensures { (p : Settings) (h : Ruled) (m : Mode) (i : HierInput) (rules : List HierRule) (a : DataSet) (o : HierOut) (s : Structure) (made : List Row) → IsHierarchyMade h rules a.structure s → IsDataSet a.structure a.points → hierarchy_of p h m i rules a o s ≡ Ok made → IsDataSet s made }
{}

/// Operands whose points stand in another order give the same points up to order, or the same fault.
pub fn checks_do_not_see_order()
    ensures datapoint { (p : Settings) (o : CheckOut) (rules : List PointRuleTree) (a : Structure) (d e : List Row) → Perm d e → Same (datapoint_of p o rules (with_points a d)) (datapoint_of p o rules (with_points a e)) }
    ensures check { (p : Settings) (spec : CheckSpec) (a : Structure) (d e : List Row) → Perm d e → Perm (check_of p spec (with_points a d) None) (check_of p spec (with_points a e) None) }
    ensures imbalance { (p : Settings) (spec : CheckSpec) (a b s : Structure) (d t e f : List Row) → IsChecked p spec (Some b) a s → IsDataSet b e → Perm d t → Perm e f → Perm (check_of p spec (with_points a d) (Some (with_points b e))) (check_of p spec (with_points a t) (Some (with_points b f))) }
{}

/// The points of checks and of hierarchies hold integers of the profile alone where those of the operand do. An imbalance
/// is shown as a number, so nothing is asked of its points.
pub fn checks_are_of_the_profile()
    ensures datapoint { (p : Settings) (o : CheckOut) (rules : List PointRuleTree) (a s : Structure) (d : List Row) → IsPointChecked p o rules a s → AreOfProfile p d → IfOk (datapoint_of p o rules (with_points a d)) (AreOfProfile p) }
    ensures check { (p : Settings) (spec : CheckSpec) (imbalance : Option DataSet) (a s : Structure) (d : List Row) → IsChecked p spec (option_map (λ e. e.structure) imbalance) a s → AreOfProfile p d → AreOfProfile p (check_of p spec (with_points a d) imbalance) }
    ensures hierarchy { (p : Settings) (o : CheckOut) (h : Ruled) (m : Mode) (rules : List HierRule) (a : Structure) (d : List Row) → AreOfProfile p d → IfOk (check_hierarchy_of p o h m (with_points a d) rules) (AreOfProfile p) }
    ensures computed { (p : Settings) (h : Ruled) (m : Mode) (i : HierInput) (rules : List HierRule) (a s : Structure) (o : HierOut) (d : List Row) → AreOfProfile p d → IfOk (hierarchy_of p h m i rules (with_points a d) o s) (AreOfProfile p) }
{}

/// `invalid` shows what is false among all: of `all_measures` without the truth value, of `all` as it stands.
pub fn invalid_is_what_is_false()
    ensures datapoint { (p : Settings) (rules : List PointRuleTree) (a : DataSet) → IsDataSet a.structure a.points → datapoint_of p out.Invalid rules a ≡ after (datapoint_of p out.AllMeasures rules a) (λ points. Ok (filter_map (false_without (truth_place a.structure)) points)) }
    ensures check { (p : Settings) (spec : CheckSpec) (a : DataSet) (imbalance : Option DataSet) → IsDataSet a.structure a.points → check_of p (record spec { output = basic.Invalid }) a imbalance ≡ filter (λ q. is_false (column_of (key_width a.structure) q)) (check_of p (record spec { output = basic.All }) a imbalance) }
{}

/// What `check_datapoint` gives for a tuple `k` of the operand's identifiers and the identifier of a rule.
///
/// - `at`: the point of the rule of this identifier at the operand's point with these identifiers, where there is such a
///   rule and such a point, and the output shows one. So `all` and `all_measures` show each point and rule once.
/// - `only`: it gives no other points.
pub fn each_rule_is_at_each_point()
    ensures at { (p : Settings) (o : CheckOut) (rules : List PointRuleTree) (a : DataSet) (s : Structure) (made : List Row) (k : Row) (id : List ℕ) → IsPointChecked p o rules a.structure s → IsDataSet a.structure a.points → datapoint_of p o rules a ≡ Ok made → look (key_width s) made (k ++ c.Text id ∷ []) ≡ option_and_then (λ rule. option_and_then (λ r. ruled_point o a.structure rule r (cell_or_null (truth_of p rule.1 r))) (look (key_width a.structure) a.points k)) (find (λ rule. same_name rule.0 id) (point_rules rules)) }
    ensures only { (p : Settings) (o : CheckOut) (rules : List PointRuleTree) (a : DataSet) (s : Structure) (made : List Row) (j q : Row) → IsPointChecked p o rules a.structure s → IsDataSet a.structure a.points → datapoint_of p o rules a ≡ Ok made → look (key_width s) made j ≡ Some q → (k : Row) × (id : List ℕ) × (is_some (find (λ rule. same_name rule.0 id) (point_rules rules)) ≡ true) × (j ≡ k ++ c.Text id ∷ []) }
{}

/// The same of checks by hierarchical rules, and of hierarchies, for every mode and input.
pub fn hierarchies_do_not_see_order()
    ensures check { (p : Settings) (o : CheckOut) (h : Ruled) (m : Mode) (rules : List HierRule) (a : Structure) (d e : List Row) → IsDataSet a d → Perm d e → Same (check_hierarchy_of p o h m (with_points a d) rules) (check_hierarchy_of p o h m (with_points a e) rules) }
    ensures computed { (p : Settings) (h : Ruled) (m : Mode) (i : HierInput) (rules : List HierRule) (a s : Structure) (d e : List Row) → IsDataSet a d → Perm d e → Same (hierarchy_of p h m i rules (with_points a d) points.Computed s) (hierarchy_of p h m i rules (with_points a e) points.Computed s) }
    ensures all { (p : Settings) (h : Ruled) (m : Mode) (i : HierInput) (rules : List HierRule) (a s : Structure) (d e : List Row) → IsHierarchyMade h rules a s → IsDataSet a d → Perm d e → Same (hierarchy_of p h m i rules (with_points a d) points.All s) (hierarchy_of p h m i rules (with_points a e) points.All s) }
{}

/// Where rules, of which no two define one item, are run in an order in which none stands before a rule that defines one of
/// its right items, the run gives what the recursion gives.
///
/// - `items`: the items behind all rules are those of the recursion.
/// - `made`: what each rule computes in the run it computes of these items.
/// - `depth`: a greater depth than there are rules changes no item.
pub fn runs_in_order_are_the_recursion()
    ensures items { (p : Settings) (m : Mode) (kind : Kind) (i : HierInput) (given : Items) (rules order : List HierRule) → AreOrdered order → Perm order rules → all_apart (λ q r. same_name (left_item q) (left_item r)) rules ≡ true → (item : List ℕ) → items_of p m kind i rules given item ≡ ran p m kind i given order item }
    ensures made { (p : Settings) (m : Mode) (kind : Kind) (i : HierInput) (given : Items) (rules order : List HierRule) → AreOrdered order → Perm order rules → all_apart (λ q r. same_name (left_item q) (left_item r)) rules ≡ true → made_in_run p m kind i given given order ≡ map (computed p m kind (items_of p m kind i rules given)) order }
    ensures depth { (p : Settings) (m : Mode) (kind : Kind) (i : HierInput) (given : Items) (rules order : List HierRule) → AreOrdered order → Perm order rules → all_apart (λ q r. same_name (left_item q) (left_item r)) rules ≡ true → (item : List ℕ) (n : ℕ) → length rules ≤ n → items_within p m kind i rules given n item ≡ items_of p m kind i rules given item }
{}
