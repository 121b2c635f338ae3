// Laws of the demonstration.
ghost use Rattle.std.specs.List.{sum_by};
ghost use Rattle.std.specs.Prelude.{◌≡◌, ◌≤◌, ◌<◌, ◌^◌, ℕ, List, Ok, length};
ghost use Rattle.vtl_check.specs.Checked.{env_over};
ghost use Rattle.vtl_check.specs.Script.{script_typed};
ghost use Rattle.vtl_check.specs.Uses.{reads};
ghost use Rattle.vtl_parser.specs.Parsed.{IsScript};
ghost use Rattle.vtl_tree.specs.DataSet.{AreOfProfile, IsDataSet};
ghost use Rattle.vtl_demo.specs.DataSets.{declared, left_points, left_structure, most_points, right_points, right_structure};
ghost use Rattle.vtl_demo.specs.Nodes.{HasResults, product_at, typed_nodes};
ghost use Rattle.vtl_demo.specs.Script.{settings, text, tree};

/// The text spells the tree, which is typed over the structures, and it reads the two data sets in their order.
pub fn script_is_accepted()
    ensures spelled { IsScript text tree }
    ensures typed { script_typed (env_over settings declared) tree ≡ Ok typed_nodes }
    ensures reads { reads declared typed_nodes ≡ declared }
{}

/// The points are those of data sets of the structures, with integers of the profile.
pub fn points_are_data_sets()
    ensures left { (n : ℕ) → IsDataSet left_structure (left_points n) }
    ensures right { (n : ℕ) → IsDataSet right_structure (right_points n) }
    ensures left_ranges { (n : ℕ) → n ≤ most_points → AreOfProfile settings (left_points n) }
    ensures right_ranges { (n : ℕ) → n ≤ most_points → AreOfProfile settings (right_points n) }
{}

/// The script has no fault over the data sets of at most a million points, and the join has a point for each number:
/// no product of factors, and no total of so many products, is too large.
pub fn demonstration_has_no_fault()
    ensures results { (n : ℕ) → n ≤ most_points → HasResults n }
    ensures products { (i : ℕ) → product_at i ≤ 998001 }
    ensures totals { (numbers : List ℕ) → length numbers ≤ most_points → sum_by product_at numbers < 10 ^ 12 }
{}
