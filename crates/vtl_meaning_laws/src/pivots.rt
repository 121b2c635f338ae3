// What `unpivot` makes of what `pivot` made.
ghost use Rattle.std.specs.Prelude.{◌≡◌, ℕ, [], ◌∷◌, ◌++◌, List, None, Some, cond, true};
ghost use Rattle.vtl_cell.specs.Kinds.{is_null};
ghost use Rattle.vtl_cell.specs.Row.{Row};
ghost use Rattle.vtl_cell.specs.declared.cell.Cell.TheVariants as c;
ghost use Rattle.vtl_tree.specs.DataSet.{IsDataSet, look};
ghost use Rattle.vtl_tree.specs.Environment.{DataSet};
ghost use Rattle.vtl_tree.specs.Names.{is_among};
ghost use Rattle.vtl_tree.specs.Structure.{key_width};
ghost use Rattle.vtl_tree.specs.declared.structure.Structure.{Structure};
ghost use Rattle.vtl_meaning.specs.Made.{IsPivoted, IsUnpivoted};
ghost use Rattle.vtl_meaning.specs.Points.{with_points};
ghost use Rattle.vtl_meaning.specs.Turned.{coded_value, codes_of, pivot_of, unpivot_of};

/// `unpivot` undoes `pivot`: at a tuple `k` of the other identifiers and a code it gives the operand's value there, the
/// measure's at the point with these identifiers and this code (`coded_value`), and no point where the operand has none, or
/// null. So the operand comes back, without nulls and other components, where its identifier holds codes alone.
pub fn unpivot_undoes_pivot()
    ensures { (id m name value : List ℕ) (d : DataSet) (s u : Structure) (k : Row) (code : List ℕ) → IsPivoted id m d.structure s → IsUnpivoted name value s u → IsDataSet d.structure d.points → is_among code (codes_of id d.structure) ≡ true → look (key_width u) (unpivot_of (with_points s (pivot_of d id m))) (k ++ c.Text code ∷ []) ≡ cond (is_null (coded_value d id m k code)) None (Some (k ++ c.Text code ∷ coded_value d id m k code ∷ [])) }
{}
