// Laws that what is read is what holds.
ghost use Rattle.std.specs.Prelude.{◌≡◌, true};
ghost use Rattle.vtl_decimal.specs.Settings.{Settings};
ghost use Rattle.vtl_cell.specs.Outcomes.{Same};
ghost use Rattle.vtl_cell.specs.declared.operator.ScalarOp.{ScalarOp};
ghost use Rattle.vtl_tree.specs.DataSet.{IsDataSet};
ghost use Rattle.vtl_tree.specs.Pairs.{contains};
ghost use Rattle.vtl_tree.specs.Environment.{DataSet, Environment};
ghost use Rattle.vtl_tree.specs.declared.structure.Structure.{Structure};
ghost use Rattle.vtl_tree.specs.Trees.{AggTree, FormTree, NodeTree};
ghost use Rattle.vtl_meaning.specs.Aggregates.{aggregate_of};
ghost use Rattle.vtl_scripts.specs.Meaning.{data_set_of, form_value};
ghost use Rattle.vtl_meaning.specs.Made.{IsPaired};
ghost use Rattle.vtl_meaning.specs.Operators.{pair_of};
ghost use Rattle.vtl_readings.specs.Aggregates.{aggregate_points};
ghost use Rattle.vtl_readings.specs.Expressions.{given, points_of};
ghost use Rattle.vtl_readings.specs.Pairs.{pair_points};

/// What an aggregate gives is a point for each group of which the condition is true, unless there is a fault.
pub fn aggregates_are_read_by_groups()
    ensures { (p : Settings) (spec : AggTree) (d : DataSet) (s : Structure) → aggregate_points p spec d s ≡ aggregate_of p spec d s }
{}

/// What an expression gives is what its operator gives of what its operands give, from left to right.
pub fn expressions_are_read_by_operands()
    ensures points { (p : Settings) (env : Environment) (s : Structure) (form : FormTree) → points_of p env s form ≡ form_value p env s form }
    ensures data_set { (p : Settings) (env : Environment) (n : NodeTree) → given p env n ≡ data_set_of p env n }
{}

/// What an operator gives of two typed data sets is its values at the pairs of points that agree, up to order; in the
/// same order where the first operand has all identifiers of the second.
pub fn operators_are_read_by_agreeing_pairs()
    ensures any { (p : Settings) (o : ScalarOp) (a b : DataSet) (s : Structure) → IsPaired p o a.structure b.structure s → IsDataSet a.structure a.points → IsDataSet b.structure b.points → Same (pair_points p o a b s) (pair_of p o a b s) }
    ensures first { (p : Settings) (o : ScalarOp) (a b : DataSet) (s : Structure) → contains a.structure b.structure ≡ true → IsPaired p o a.structure b.structure s → IsDataSet a.structure a.points → IsDataSet b.structure b.points → pair_points p o a b s ≡ pair_of p o a b s }
{}
