// Laws of the definitions.
ghost use Rattle.std.specs.Prelude.{◌≡◌, ℕ, List, Ok};
ghost use Rattle.vtl_cell.specs.Outcomes.{Same, is_true};
ghost use Rattle.vtl_decimal.specs.Settings.{Settings};
ghost use Rattle.vtl_lists.specs.Perm.{Perm};
ghost use Rattle.vtl_cell.specs.Row.{Row};
ghost use Rattle.vtl_tree.specs.Clauses.{filter_of, kept};
ghost use Rattle.vtl_tree.specs.DataSet.{Distinct, IsDataSet, look};
ghost use Rattle.vtl_tree.specs.CompExp.{CompExp};
ghost use Rattle.vtl_tree.specs.Kept.{kept_row};
ghost use Rattle.vtl_tree.specs.Value.{value};
ghost use Rattle.vtl_tree.specs.declared.structure.Structure.{Structure};

/// A list of points with distinct identifiers is a finite map: it is known, up to order, by the point that each
/// tuple of identifiers has.
pub fn points_are_a_map()
    ensures same { (n : ℕ) (d e : List Row) → Distinct n d → Distinct n e → ((k : Row) → look n d k ≡ look n e k) → Perm d e }
    ensures back { (n : ℕ) (d e : List Row) → Distinct n d → Perm d e → (k : Row) → look n d k ≡ look n e k }
{}

/// `filter` gives a data set of the same structure, which at each tuple of identifiers has the operand's point where
/// the condition is true there and none elsewhere; it does not depend on the order of points.
pub fn filter_is_a_clause()
    ensures kept { (p : Settings) (s : Structure) (c : CompExp) (d : List Row) → IsDataSet s d → IsDataSet s (kept p c d) }
    ensures at { (p : Settings) (n : ℕ) (c : CompExp) (d : List Row) (k : Row) → Distinct n d → look n (kept p c d) k ≡ kept_row (λ r. is_true (value p c r)) (look n d k) }
    ensures order { (p : Settings) (c : CompExp) (t d : List Row) → Perm t d → Same (filter_of p c t) (filter_of p c d) }
{}
