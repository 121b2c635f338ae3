// Laws of the definitions: what the rows of series are, in words that name no list of numbers.
ghost use Rattle.std.specs.Prelude.{◌≡◌, ◌<◌, ◌*◌, ◌++◌, ◌∷◌, [], ℕ, true, List, length};
ghost use Rattle.std.specs.List.{AllByRecursion, list_any, range_with_len};
ghost use Rattle.vtl_lists.specs.Apart.{all_apart};
ghost use Rattle.vtl_lists.specs.Perm.{Perm};
ghost use Rattle.vtl_cell.specs.Row.{Row, same_row};
ghost use Rattle.vtl_cell.specs.declared.kind.Kind.{Kind};
ghost use Rattle.vtl_cell.specs.declared.kind.Kind.TheVariants as k;
ghost use Rattle.vtl_rows.specs.Tables.{cells_at, fits_kinds};
ghost use Rattle.vtl_time.specs.Periods.{parts_in_year};
ghost use Rattle.vtl_time.specs.declared.periods.Frequency.{Frequency};
ghost use Rattle.vtl_series.specs.Series.{dated, is_spanned, rows_by, seen_by, series_rows};
ghost use Rattle.vtl_series.specs.declared.extent.Extent.{Extent};
ghost use Rattle.vtl_series.specs.declared.extent.Extent.TheVariants as extent;

/// The order of the rows is not seen: rows in another order have the same series, up to the order of their rows.
pub fn rows_are_seen_in_no_order()
    ensures { (e : Extent) (on : ℕ) (by : List ℕ) (rows others : List Row) → Perm rows others → Perm (series_rows e on by rows) (series_rows e on by others) }
{}

/// Each row has the cells of a row of the table at the listed places, of their kinds, and behind them a period.
pub fn rows_fit_their_kinds()
    ensures { (e : Extent) (on : ℕ) (by : List ℕ) (kinds : List Kind) (rows : List Row) → AllByRecursion (λ r. fits_kinds kinds (cells_at by r) ≡ true) rows → AllByRecursion (λ r. fits_kinds (kinds ++ k.Period ∷ []) r ≡ true) (series_rows e on by rows) }
{}

/// No row stands twice.
pub fn rows_stand_once()
    ensures { (e : Extent) (on : ℕ) (by : List ℕ) (rows : List Row) → all_apart same_row (series_rows e on by rows) ≡ true }
{}

/// Which rows there are: beside a tuple stands a period exactly where the tuple has a row of its frequency, and of the rows
/// that count one is not later and one not earlier. So there is no gap, ALL contains SINGLE, and series that are made of
/// series are the same.
pub fn series_are_whole()
    ensures exactly { (e : Extent) (on : ℕ) (by : List ℕ) (rows : List Row) (key : Row) (f : Frequency) (i : ℕ) → i < 10000 * parts_in_year f → list_any (same_row (dated f key i)) (series_rows e on by rows) ≡ is_spanned f on (rows_by by rows key) (seen_by e rows (rows_by by rows key)) i }
    ensures contains { (on : ℕ) (by : List ℕ) (rows : List Row) → AllByRecursion (λ r. list_any (same_row r) (series_rows extent.All on by rows) ≡ true) (series_rows extent.Single on by rows) }
    ensures again { (e : Extent) (on : ℕ) (by : List ℕ) (rows : List Row) → series_rows e (length by) (range_with_len 0 (length by)) (series_rows e on by rows) ≡ series_rows e on by rows }
{}
