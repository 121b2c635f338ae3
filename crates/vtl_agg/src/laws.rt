// Laws of the values of aggregates.
ghost use Rattle.std.specs.Prelude.{◌≡◌, ◌≤◌, false, IfErr, IsOk, List};
ghost use Rattle.std.specs.List.{AllByRecursion};
ghost use Rattle.vtl_agg.specs.Added.{IsProper, may_be_out_of_range};
ghost use Rattle.vtl_cell.specs.Groups.{group_value};
ghost use Rattle.vtl_decimal.specs.declared.number.Fault.TheVariants.{Range};
ghost use Rattle.vtl_cell.specs.declared.cell.Cell.{Cell};
ghost use Rattle.vtl_cell.specs.declared.operator.AggKind.{AggKind};
ghost use Rattle.vtl_decimal.specs.Settings.{Settings};

/// The one fault of an aggregate is Range, and only a total and a count have it: of cells whose integers are of the
/// profile, an average and a median are in range.
pub fn only_totals_and_counts_are_out_of_range()
    ensures fault { (p : Settings) (kind : AggKind) (xs : List Cell) → IfErr (group_value p kind xs) (λ e. e ≡ Range) }
    ensures others { (p : Settings) (kind : AggKind) (xs : List Cell) → may_be_out_of_range kind ≡ false → p.scale ≤ 9 → AllByRecursion (IsProper p) xs → IsOk (group_value p kind xs) }
{}
